//! Where expressions lead along pointers that never change (C11 6.5.2.1, 6.5.2.3, 6.5.3.2).
ghost use Rattle.std.specs.Prelude.{◌≡◌, true, IfOk};
ghost use Rattle.tsa_place_model.specs.LockPaths.{in_range as spec_in_range, led as spec_led, pointed as spec_pointed, meant as spec_meant};
ghost use Rattle.tsa_tree.specs.types.Types.{single as spec_single};
ghost use Rattle.tsa_place_model.specs.Ways.{onward as spec_onward};

use std::marker::Model;
use tsa_base::NoMemory;
use tsa_place_model::{Path, PathStep};
use tsa_tree::kind::{Kind, ThingType};
use tsa_tree::number::Number;
use tsa_types_expressions::single;

/// Where an expression leads: the path, the type that was declared there, and whether a pointer there never changes.
#[derive(Drop)]
pub struct Led {
    path: Path,
    thing: ThingType,
    is_stable: bool,
}

impl Model for Led {
    ghost use Rattle.tsa_place_model.specs.LockPaths.{Led};

    ghost Value = { Led };

    ghost view = { λ led. record { way = led.path; thing = led.thing; is_stable = led.is_stable } };
}

/// The step to an element by a constant, where it is in range.
pub fn in_range(length: u32, value: Option<Number>) -> Option<PathStep>
    ensures { result ≡ spec_in_range length value }
{
    let index = match value? {
        Number::Int(z) => u32::try_from(z).ok()?,
        Number::Unsigned(n) => n,
    };
    if index < length {
        Some(PathStep::Constant(index))
    } else {
        None
    }
}

impl Led {
    /// A path to a thing of a type: a pointer there never changes where it is declared `const`.
    pub fn new(path: Path, thing: ThingType) -> Led
        ensures { result ≡ spec_led path thing }
    {
        Led {
            path,
            thing,
            is_stable: thing.is_const,
        }
    }

    /// A path to a pointer that never changes, whatever it is declared as.
    pub fn stable(path: Path, thing: ThingType) -> Led
        ensures { result ≡ record { way = path; thing = thing; is_stable = true } }
    {
        Led {
            path,
            thing,
            is_stable: true,
        }
    }

    /// The type that was declared there.
    pub fn thing(&self) -> ThingType
        ensures { result ≡ self.now.thing }
    {
        self.thing
    }

    /// The path.
    pub fn path(&self) -> &Path
        ensures { result.now ≡ self.now.way }
    {
        &self.path
    }

    /// The path alone.
    pub fn into_path(self) -> Path
        ensures { result ≡ self.way }
    {
        self.path
    }

    /// A step on to a thing that is declared by itself.
    pub fn onward(self, step: PathStep, thing: ThingType) -> Result<Led, NoMemory>
        ensures { IfOk result (λ led. led ≡ spec_led (spec_onward step self.way) thing) }
    {
        Ok(Led::new(self.path.onward(step)?, thing))
    }

    /// A step on to an element, which is declared with its array.
    pub fn element(self, step: PathStep) -> Result<Led, NoMemory>
        ensures { IfOk result (λ led. led
            ≡ record {
              way = spec_onward step self.way;
              thing = spec_single self.thing.kind self.thing.is_const;
              is_stable = self.is_stable;
            }) }
    {
        let thing = single(self.thing.kind, self.thing.is_const);
        Ok(Led {
            path: self.path.onward(step)?,
            thing,
            is_stable: self.is_stable,
        })
    }

    /// Where a pointer that never changes points.
    pub fn pointed(self) -> Result<Option<Led>, NoMemory>
        ensures { IfOk result (λ led. led ≡ spec_pointed self) }
    {
        if !self.is_stable || self.thing.length.is_some() {
            return Ok(None);
        }
        match self.thing.kind {
            Kind::Pointer { target, to_const } => {
                let thing = single(Kind::Structure(target), to_const);
                Ok(Some(self.onward(PathStep::Follow, thing)?))
            }
            _ => Ok(None),
        }
    }
}

/// A place itself, or where the pointer in it points.
pub fn meant(as_pointer: bool, led: Option<Led>) -> Result<Option<Led>, NoMemory>
    ensures { IfOk result (λ after. after ≡ spec_meant as_pointer led) }
{
    match led {
        Some(led) if as_pointer => led.pointed(),
        other => Ok(other),
    }
}
