//! Arguments, names and attributes are put on a sheet.
ghost use Rattle.std.specs.Prelude.{◌≡◌, OnOk};
ghost use Rattle.std.specs.Option.{option_map};
ghost use Rattle.tsa_tree.specs.attributes.Syntax.{attr_shape, attr_shapes};
ghost use Rattle.tsa_tree.specs.expressions.Shapes.{name_shape, shapes};
ghost use Rattle.tsa_print.specs.Canonical.{arguments, further};
ghost use Rattle.tsa_print.specs.DeclarationPieces.{name_pieces, macro_word as spec_macro_word, taken, attribute_pieces, attributes_pieces};
ghost use Rattle.tsa_print.specs.Sheets.{page_of, put};

use crate::mark::Mark;
use crate::sheet::Sheet;
use tsa_base::NoMemory;
use tsa_tree::attr::{Attr, AttrKind};
use tsa_tree::expr::{Expr, Name};

/// Puts arguments after another one.
pub fn put_further(sheet: &mut Sheet, args: &[Expr<'_>]) -> Result<(), NoMemory>
    ensures { OnOk result (page_of sheet.new ≡ put (page_of sheet.old) (further (shapes args.now))) }
{
    'each: for arg in args {
        sheet.put_mark(Mark::Comma)?;
        sheet.put_expr(arg, 0)?;
    }
    Ok(())
}

fn put_arguments(sheet: &mut Sheet, args: &[Expr<'_>]) -> Result<(), NoMemory>
    ensures { OnOk result (page_of sheet.new ≡ put (page_of sheet.old) (arguments (shapes args.now))) }
{
    match args {
        [] => Ok(()),
        [first, rest @ ..] => {
            sheet.put_expr(first, 0)?;
            put_further(sheet, rest)
        }
    }
}

/// Puts a name, where there is one.
pub fn put_name(sheet: &mut Sheet, name: Option<Name<'_>>) -> Result<(), NoMemory>
    ensures { OnOk result (page_of sheet.new ≡ put (page_of sheet.old) (name_pieces (option_map name_shape name.entry))) }
{
    match name {
        Some(name) => sheet.put_word(name.text),
        None => Ok(()),
    }
}

fn macro_word(kind: AttrKind) -> &'static [u8]
    ensures { result.now ≡ spec_macro_word kind }
{
    match kind {
        AttrKind::Capability => b"CAPABILITY",
        AttrKind::GuardedBy => b"GUARDED_BY",
        AttrKind::Requires => b"REQUIRES",
        AttrKind::RequiresShared => b"REQUIRES_SHARED",
        AttrKind::Acquire => b"ACQUIRE",
        AttrKind::AcquireShared => b"ACQUIRE_SHARED",
        AttrKind::Release => b"RELEASE",
        AttrKind::ReleaseShared => b"RELEASE_SHARED",
        AttrKind::ReleaseGeneric => b"RELEASE_GENERIC",
        AttrKind::TryAcquire => b"TRY_ACQUIRE",
        AttrKind::TryAcquireShared => b"TRY_ACQUIRE_SHARED",
        AttrKind::Excludes => b"EXCLUDES",
        AttrKind::AcquiredBefore => b"ACQUIRED_BEFORE",
        AttrKind::AcquiredAfter => b"ACQUIRED_AFTER",
    }
}

// Puts what an attribute takes in its parentheses.
fn put_taken(sheet: &mut Sheet, attr: &Attr<'_>) -> Result<(), NoMemory>
    ensures { let a = attr_shape attr.now in OnOk result (page_of sheet.new ≡ put (page_of sheet.old) (taken a.text a.success a.args)) }
{
    if let Some(text) = attr.text {
        return sheet.put_quoted(text);
    }
    if let Some(success) = attr.success {
        sheet.put_number(if success { 1 } else { 0 })?;
        return put_further(sheet, attr.args);
    }
    put_arguments(sheet, attr.args)
}

#[tactic(auto, using(crate::proofs::Pages::put_append))]
fn put_attribute(sheet: &mut Sheet, attr: &Attr<'_>) -> Result<(), NoMemory>
    ensures { OnOk result (page_of sheet.new ≡ put (page_of sheet.old) (attribute_pieces (attr_shape attr.now))) }
{
    sheet.put_word(macro_word(attr.kind))?;
    sheet.put_mark(Mark::OpenCall)?;
    put_taken(sheet, attr)?;
    sheet.put_mark(Mark::CloseParenthesis)
}

/// Puts attributes one after another.
pub fn put_attributes(sheet: &mut Sheet, attrs: &[Attr<'_>]) -> Result<(), NoMemory>
    ensures { OnOk result (page_of sheet.new ≡ put (page_of sheet.old) (attributes_pieces (attr_shapes attrs.now))) }
{
    'each: for attr in attrs {
        put_attribute(sheet, attr)?;
    }
    Ok(())
}
