//! The text of a path so far.
ghost use Rattle.std.specs.Prelude.{◌≡◌, ◌++◌, IfOk, OnOk, option_map, codes};
ghost use Rattle.std.specs.Fmt.{decimal};
ghost use Rattle.tsa_path.specs.Labels.{label};
ghost use Rattle.tsa_path.specs.PathTexts.{name_of, structure_of, link_text, place_text, named as spec_named, to_member as spec_to_member};
ghost use Rattle.tsa_path.specs.PathTexts.{to_element as spec_to_element, trail_text};

use crate::names::Named;
use std::alloc::Global;
use std::marker::Model;
use tsa_base::NoMemory;

/// How a member is added to a text: one of the object that has the guard, of what the text names, or of what that points to.
#[derive(Clone, Copy, Debug, PartialEq, Eq)]
pub enum Link {
    Own,
    Dot,
    Arrow,
}

/// The text of a path so far, how a member is added to it, and the struct whose members it has. Contracts see a trail.
#[derive(Drop)]
pub struct Trail {
    text: Vec<u8>,
    link: Link,
    structure: Option<u32>,
}

impl Model for Trail {
    ghost use Rattle.tsa_path.specs.PathTexts.{Trail};

    ghost Value = { Trail };

    ghost view = { λ trail. record { text = trail.text.items; link = trail.link; structure = trail.structure } };
}

/// The name alone.
fn name<'n>(named: Option<Named<'n>>) -> &'n [u8]
    ensures { result.now ≡ name_of (option_map label named.entry) }
{
    match named {
        Some(named) => named.name,
        None => b"",
    }
}

/// The struct alone.
fn structure(named: Option<Named<'_>>) -> Option<u32>
    ensures { result ≡ structure_of (option_map label named.entry) }
{
    named?.structure
}

/// What stands between a text and a member's name.
fn sign(link: Link) -> &'static [u8]
    ensures { result.now ≡ link_text link }
{
    match link {
        Link::Own => b"",
        Link::Dot => b".",
        Link::Arrow => b"->",
    }
}

impl Trail {
    /// The text of a name.
    pub fn named(alloc: Global, named: Option<Named<'_>>) -> Result<Trail, NoMemory>
        ensures { IfOk result (λ trail. trail ≡ spec_named (option_map label named.entry)) }
    {
        let mut text = Vec::new(alloc);
        text.extend_from_slice(name(named))?;
        Ok(Trail {
            text,
            link: Link::Dot,
            structure: structure(named),
        })
    }

    /// The object that has the guard, which has no text.
    pub fn own(alloc: Global, structure: Option<u32>) -> Trail
        ensures { result ≡ record { text = codes ""; link = Link.Own; structure = structure } }
    {
        Trail {
            text: Vec::new(alloc),
            link: Link::Own,
            structure,
        }
    }

    /// The struct whose members it has.
    pub fn structure(&self) -> Option<u32>
        ensures { result ≡ self.now.structure }
    {
        self.structure
    }

    /// The text of the place itself.
    pub fn into_text(self, alloc: Global) -> Result<Vec<u8>, NoMemory>
        ensures { IfOk result (λ text. text.items ≡ trail_text self) }
    {
        match self.link {
            Link::Arrow => {
                let mut text = Vec::new(alloc);
                text.extend_from_slice(b"*")?;
                text.extend_from_slice(&self.text)?;
                Ok(text)
            }
            _ => Ok(self.text),
        }
    }

    /// The same with a member.
    pub fn to_member(mut self, named: Option<Named<'_>>) -> Result<Trail, NoMemory>
        ensures { IfOk result (λ trail. trail ≡ spec_to_member self (option_map label named.entry)) }
    {
        self.text.extend_from_slice(sign(self.link))?;
        self.text.extend_from_slice(name(named))?;
        self.link = Link::Dot;
        self.structure = structure(named);
        Ok(self)
    }

    /// The same with an element, by the text of its index.
    pub fn to_element(self, alloc: Global, index: &[u8]) -> Result<Trail, NoMemory>
        ensures { IfOk result (λ trail. trail ≡ spec_to_element self index.now) }
    {
        let structure = self.structure;
        let mut text = self.into_text(alloc)?;
        text.extend_from_slice(b"[")?;
        text.extend_from_slice(index)?;
        text.extend_from_slice(b"]")?;
        Ok(Trail {
            text,
            link: Link::Dot,
            structure,
        })
    }

    /// Where the pointer points that it names.
    pub fn followed(self, alloc: Global) -> Result<Trail, NoMemory>
        ensures { IfOk result (λ trail. trail ≡ record { text = trail_text self; link = Link.Arrow; structure = self.structure }) }
    {
        let structure = self.structure;
        Ok(Trail {
            text: self.into_text(alloc)?,
            link: Link::Arrow,
            structure,
        })
    }
}
