//! What is seen of an expression on the way to its cells.
ghost use Rattle.std.specs.Prelude.{◌≡◌, ◌++◌, None, [], true, false, not, option_map, if◌then◌else◌, IfOk, OnOk};
ghost use Rattle.tsa_tree.specs.declared.expr.UnaryOp.TheVariants as prefix;
ghost use Rattle.tsa_core.specs.Meanings.{of_prefix};
ghost use Rattle.tsa_profile_accesses.specs.ExpressionViews.{a_value, loaded as spec_loaded, meant_as as spec_meant_as, own_access};
ghost use Rattle.tsa_profile_accesses.specs.ExpressionViews.{thing_of, typed};

use crate::access::{Access, Accesses};
use crate::guards::copies;
use crate::thing::{Thing, prefix_thing};
use std::alloc::Global;
use std::marker::Model;
use tsa_base::{NoMemory, Span};
use tsa_place_layout::{Led, meant};
use tsa_place_model::Path;
use tsa_tree::expr::UnaryOp;

/// What an expression is, where it leads, and the guards of its access.
#[derive(Drop)]
pub struct Seen {
    pub thing: Thing,
    pub led: Option<Led>,
    pub guards: Vec<Option<Path>>,
}

impl Model for Seen {
    ghost use Rattle.tsa_profile_accesses.specs.ExpressionViews.{Seen};

    ghost Value = { Seen };

    ghost view = { λ seen. record { thing = seen.thing; led = seen.led; guards = seen.guards.items } };
}

/// The path to what an expression leads to, where it leads anywhere.
pub fn path_of(led: &Option<Led>) -> Option<&Path>
    ensures { option_map (λ path. path.now) result ≡ option_map (λ led. led.way) led.now }
{
    match led {
        Some(led) => Some(led.path()),
        None => None,
    }
}

/// Where something leads, or nowhere.
fn led_if(led: Option<Led>, is_kept: bool) -> Option<Led>
    ensures { result ≡ (if is_kept then led else None) }
{
    if is_kept { led } else { None }
}

impl Seen {
    /// A value, which leads nowhere.
    pub fn value(alloc: Global, thing: Thing) -> Seen
        ensures { result ≡ a_value thing }
    {
        Seen {
            thing,
            led: None,
            guards: Vec::new(alloc),
        }
    }

    /// The same as a place, or as what a pointer there points to.
    pub fn meant_as(self, as_pointer: bool) -> Result<Seen, NoMemory>
        ensures { IfOk result (λ seen. seen ≡ spec_meant_as as_pointer self) }
    {
        Ok(Seen {
            thing: self.thing,
            led: meant(as_pointer, self.led)?,
            guards: self.guards,
        })
    }

    /// Its value is used: a cell is read, whose guards then stand with its access.
    pub fn loaded(self, alloc: Global, cells: &mut Accesses, span: Span) -> Result<Seen, NoMemory>
        ensures seen { IfOk result (λ seen. seen ≡ spec_loaded self) }
        ensures cells { OnOk result (cells.new ≡ own_access self.thing (record { span = span; is_write = false; guards = self.guards })
            ++ cells.old) }
    {
        let thing = self.thing;
        let access = Access {
            span,
            is_write: false,
            guards: self.guards,
        };
        cells.put_own(thing, access)?;
        Ok(Seen {
            thing,
            led: self.led,
            guards: Vec::new(alloc),
        })
    }

    /// It is written, where it is a cell.
    pub fn put_write(&self, alloc: Global, cells: &mut Accesses, span: Span) -> Result<(), NoMemory>
        ensures { OnOk result (cells.new ≡ own_access self.now.thing (record { span = span; is_write = true; guards = self.now.guards })
            ++ cells.old) }
    {
        let guards = copies(alloc, &self.guards)?;
        cells.put_own(
            self.thing,
            Access {
                span,
                is_write: true,
                guards,
            },
        )
    }

    /// Its address, which leads to it as a pointer.
    pub fn address(self, alloc: Global, as_pointer: bool) -> Seen
        ensures { result ≡ record {
          thing = thing_of (of_prefix prefix.Address (typed self.thing.expression));
          led = if as_pointer then
              self.led else None;
          guards = [];
        } }
    {
        Seen {
            thing: prefix_thing(UnaryOp::Address, self.thing.expression),
            led: led_if(self.led, as_pointer),
            guards: Vec::new(alloc),
        }
    }

    /// What it points to, where it leads as a pointer.
    pub fn followed(self, alloc: Global, as_pointer: bool) -> Seen
        ensures { result ≡ record {
          thing = thing_of (of_prefix prefix.Follow (typed self.thing.expression));
          led = if not as_pointer then
              self.led else None;
          guards = [];
        } }
    {
        Seen {
            thing: prefix_thing(UnaryOp::Follow, self.thing.expression),
            led: led_if(self.led, !as_pointer),
            guards: Vec::new(alloc),
        }
    }
}
