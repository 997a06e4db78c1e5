//! Lists of points by the names of functions.
ghost use Rattle.std.specs.Prelude.{◌≡◌, [], map, option_map, IfOk, OnOk};
ghost use Rattle.tsa_trace.specs.Views.{spans_of, text_of};
ghost use Rattle.tsa_trace.specs.Tables.{texts_by, with_first};
ghost use Rattle.tsa_tree.specs.types.Scopes.{found};

use indexmap::IndexMap;
use std::alloc::Global;
use std::marker::Model;
use tsa_base::NoMemory;
use tsa_tree::stmt::Point;

/// A function by its name, with the points of its body where it has one.
#[derive(Clone, Copy)]
pub struct Function<'a> {
    pub name: &'a [u8],
    pub points: Option<&'a [Point<'a>]>,
}

/// Names of functions in the order in which they were kept, each with the points that were kept first. Contracts see the list of them.
pub struct Table<'a> {
    entries: IndexMap<&'a [u8], &'a [Point<'a>]>,
}

impl Drop for Table<'_> {
    /// Lets its list go, in one call for all who let one go.
    fn drop(self) {
        let Table { entries: _ } = self;
    }
}

impl<'a> Model for Table<'a> {
    ghost use Rattle.std.specs.Prelude.{map};
    ghost use Rattle.tsa_trace.specs.Tables.{Table};
    ghost use Rattle.tsa_trace.specs.Views.{spans_of};

    ghost Value = { Table };

    ghost view = { λ table. map (λ e. (e.0.now, spans_of e.1.now)) table.entries.entries };
}

impl<'a> Table<'a> {
    /// No functions. No memory is taken.
    pub fn new(alloc: Global) -> Table<'a>
        ensures { result ≡ [] }
    {
        Table {
            entries: IndexMap::new(alloc),
        }
    }

    /// Keeps the points of a function, where it is the first one of its name.
    pub fn keep(&mut self, name: &'a [u8], points: &'a [Point<'a>]) -> Result<(), NoMemory>
        ensures { OnOk result (self.new ≡ with_first name.now (spans_of points.now) self.old) }
    {
        self.entries.entry(name)?.or_insert(points);
        Ok(())
    }

    /// The points of a function, where it is kept.
    fn find(&self, name: &[u8]) -> Option<&'a [Point<'a>]>
        ensures { option_map (λ points. spans_of points.now) result ≡ found self.now name.now }
    {
        self.entries.get(name).copied()
    }

    /// The functions, each with the points of its body in another table.
    pub fn with_points(
        &self,
        alloc: Global,
        bodies: &Table<'a>,
    ) -> Result<Vec<Function<'a>>, NoMemory>
        ensures { IfOk result (λ list. map text_of list.items ≡ texts_by self.now bodies.now) }
    {
        let mut list = Vec::new(alloc);
        'each: for (name, _) in self.entries.iter() {
            list.push(Function {
                name,
                points: bodies.find(name),
            })?;
        }
        Ok(list)
    }
}
