//! Paths of a callee as its callers have them, with their numbers and texts.
ghost use Rattle.std.specs.Prelude.{◌≡◌, option_map, slice_get};
ghost use Rattle.tsa_path.specs.Labels.{label};

use crate::texts::{put, put_number};
use std::alloc::Global;
use std::test::Fail;
use tsa_base::NoMemory;
use tsa_path::{Named, PathNames, PathTable, constant_path, path_text, substitute};
use tsa_place_model::{Path, PathStep, Root};

/// The names of a caller: of globals and locals by their numbers, and of the members of one struct.
pub struct Caller {
    pub globals: &'static [Named<'static>],
    pub locals: &'static [Named<'static>],
    pub members: &'static [Named<'static>],
}

impl PathNames for Caller {
    ghost use Rattle.std.specs.Prelude.{None};
    ghost use Rattle.tsa_path.specs.PathTexts.{Names};

    ghost names = { λ caller. record { global = λ n. option_map label (slice_get caller.globals.now n); local = λ n. option_map label (slice_get caller.locals.now n); member = λ structure k. option_map label (slice_get caller.members.now k); owner = None } };

    fn global(&self, number: u32) -> Option<Named<'_>> {
        self.globals.get(number as usize).copied()
    }

    fn local(&self, number: u32) -> Option<Named<'_>> {
        self.locals.get(number as usize).copied()
    }

    fn member(&self, _structure: u32, number: u32) -> Option<Named<'_>> {
        self.members.get(number as usize).copied()
    }

    fn owner(&self) -> Option<u32> {
        None
    }
}

const CALLER: Caller = Caller {
    globals: &[Named {
        name: b"bank",
        structure: Some(0),
    }],
    locals: &[
        Named {
            name: b"q",
            structure: Some(0),
        },
        Named {
            name: b"k",
            structure: None,
        },
    ],
    members: &[Named {
        name: b"mu",
        structure: None,
    }],
};

/// The path of a root with some steps.
pub fn path_of(alloc: Global, root: Root, steps: &[PathStep]) -> Result<Path, Fail> {
    let mut path = Path::new(alloc, root);
    for step in steps {
        path = path.onward(*step)?;
    }
    Ok(path)
}

// `p->mu`, `bank[i].mu` and `*p` of a callee with the parameters p and i.
fn callee_paths(alloc: Global) -> Result<[Path; 3], Fail> {
    Ok([
        path_of(
            alloc,
            Root::Local(0),
            &[PathStep::Follow, PathStep::Field(0)],
        )?,
        path_of(
            alloc,
            Root::Global(0),
            &[PathStep::Variable(1), PathStep::Field(0)],
        )?,
        path_of(alloc, Root::Local(0), &[PathStep::Follow])?,
    ])
}

// Numbers a path, or tells that there is no room for it.
fn put_numbered(out: &mut Vec<u8>, table: &mut PathTable, path: Path) -> Result<(), Fail> {
    match table.intern(path) {
        Ok(id) => put_number(out, id),
        Err(_) => put(out, b"full "),
    }
}

// The text of a path.
fn put_path(out: &mut Vec<u8>, path: &Path) -> Result<(), Fail> {
    put(out, &path_text(*out.allocator(), &CALLER, path)?)?;
    put(out, b": ")
}

// A path as a caller has it, with its number, or that it has none.
fn put_after(
    out: &mut Vec<u8>,
    table: &mut PathTable,
    path: Result<Option<Path>, NoMemory>,
) -> Result<(), Fail> {
    match path? {
        Some(path) => {
            put_path(out, &path)?;
            put_numbered(out, table, path)
        }
        None => put(out, b"none "),
    }
}

// The callee's paths as a caller has them that gives such arguments, each with its number.
fn put_call(
    out: &mut Vec<u8>,
    alloc: Global,
    table: &mut PathTable,
    args: &[Option<Path>],
) -> Result<(), Fail> {
    for path in &callee_paths(alloc)? {
        put_after(out, table, substitute(alloc, path, args))?;
    }
    Ok(())
}

// The path of an element of the bank.
fn element(alloc: Global, number: u32) -> Result<Option<Path>, Fail> {
    let path = path_of(alloc, Root::Global(0), &[PathStep::Constant(number)])?;
    Ok(Some(path))
}

// The paths of the calls `f(&bank[2], 5)`, `f(q, k)` and `f(&bank[5], x + 1)`.
fn put_calls(out: &mut Vec<u8>, alloc: Global, table: &mut PathTable) -> Result<(), Fail> {
    let pointer = Path::new(alloc, Root::Local(0));
    let index = Path::new(alloc, Root::Local(1));
    let five = constant_path(alloc, 5)?;
    put_call(out, alloc, table, &[element(alloc, 2)?, Some(five)])?;
    put_call(out, alloc, table, &[Some(pointer), Some(index)])?;
    put_call(out, alloc, table, &[element(alloc, 5)?, None])
}

// Numbers the paths of globals.
fn put_globals(
    out: &mut Vec<u8>,
    table: &mut PathTable,
    numbers: std::ops::Range<u32>,
) -> Result<(), Fail> {
    let alloc = *out.allocator();
    for number in numbers {
        put_numbered(out, table, Path::new(alloc, Root::Global(number)))?;
    }
    Ok(())
}

// The paths of those calls, and what a table tells that is full of others.
fn show_paths(alloc: Global) -> Result<Vec<u8>, Fail> {
    let mut out = Vec::new(alloc);
    let mut table = PathTable::new(alloc);
    put_calls(&mut out, alloc, &mut table)?;
    put_globals(&mut Vec::new(alloc), &mut table, 0..248)?;
    put_globals(&mut out, &mut table, 247..250)?;
    put_number(&mut out, table.len())?;
    Ok(out)
}

#[test]
fn paths_are_put_numbered_and_written(rt: HostRuntime) -> Result<(), Fail> {
    let expected: &[u8] =
        b"bank[2].mu: 0 bank[5].mu: 1 bank[2]: 2 q->mu: 3 bank[k].mu: 4 *q: 5 bank[5].mu: 1 none bank[5]: 6 254 255 full 256 ";
    assert_eq!(rt; show_paths(rt.alloc())?.as_slice(), expected);
    Ok(())
}
