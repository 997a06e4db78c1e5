//! Types and declarations are put on a sheet.
ghost use Rattle.std.specs.Prelude.{◌≡◌, ◌∷◌, [], OnOk};
ghost use Rattle.std.specs.Option.{option_map};
ghost use Rattle.tsa_tree.specs.declarations.Syntax.{list};
ghost use Rattle.tsa_tree.specs.expressions.Syntax.{nowhere};
ghost use Rattle.tsa_tree.specs.declarations.Shapes.{base_shape, type_shape, init_shape, init_shapes, decl_shape, decl_shapes};
ghost use Rattle.tsa_tree.specs.expressions.Shapes.{shape};
ghost use Rattle.tsa_print.specs.Canonical.{word};
ghost use Rattle.tsa_print.specs.DeclarationPieces.{base_pieces, const_pieces, star_pieces, type_pieces, length_pieces, initialiser_pieces};
ghost use Rattle.tsa_print.specs.DeclarationPieces.{initialisers_pieces, further_pieces, init_pieces, declaration_pieces, members_pieces};
ghost use Rattle.tsa_print.specs.Sheets.{page_of, put};

use crate::attributes::put_attributes;
use crate::mark::Mark;
use crate::sheet::Sheet;
use tsa_base::NoMemory;
use tsa_tree::decl::{BaseType, CType, Decl, Init};
use tsa_tree::expr::{Expr, Name};

// Puts the word of a kind of types, and a tag.
fn put_tagged(sheet: &mut Sheet, text: &[u8], tag: Name<'_>) -> Result<(), NoMemory>
    ensures { OnOk result (page_of sheet.new ≡ put (page_of sheet.old) (word text.now ∷ (word tag.entry.text.now ∷ []))) }
{
    sheet.put_word(text)?;
    sheet.put_word(tag.text)
}

fn put_base(sheet: &mut Sheet, base: &BaseType<'_>) -> Result<(), NoMemory>
    ensures { OnOk result (page_of sheet.new ≡ put (page_of sheet.old) (base_pieces (base_shape base.now))) }
{
    match base {
        BaseType::Int => sheet.put_word(b"int"),
        BaseType::Unsigned => sheet.put_word(b"unsigned"),
        BaseType::Void => sheet.put_word(b"void"),
        BaseType::Structure(tag) => put_tagged(sheet, b"struct", *tag),
        BaseType::Enumerated(tag) => put_tagged(sheet, b"enum", *tag),
        BaseType::Alias(name) => sheet.put_word(name.text),
    }
}

fn put_const(sheet: &mut Sheet, is_const: bool) -> Result<(), NoMemory>
    ensures { OnOk result (page_of sheet.new ≡ put (page_of sheet.old) (const_pieces is_const)) }
{
    if is_const {
        return sheet.put_word(b"const");
    }
    Ok(())
}

fn put_star(sheet: &mut Sheet, pointer: bool, pointer_const: bool) -> Result<(), NoMemory>
    ensures { OnOk result (page_of sheet.new ≡ put (page_of sheet.old) (star_pieces pointer pointer_const)) }
{
    if pointer {
        sheet.put_mark(Mark::Star)?;
        return put_const(sheet, pointer_const);
    }
    Ok(())
}

/// Puts a type without its length.
#[tactic(auto, using(crate::proofs::Pages::put_append))]
pub fn put_type(sheet: &mut Sheet, ctype: &CType<'_>) -> Result<(), NoMemory>
    ensures { OnOk result (page_of sheet.new ≡ put (page_of sheet.old) (type_pieces (type_shape ctype.now))) }
{
    put_const(sheet, ctype.base_const)?;
    put_base(sheet, &ctype.base)?;
    put_star(sheet, ctype.pointer, ctype.pointer_const)
}

#[tactic(auto, using(crate::proofs::Pages::put_append))]
fn put_length(sheet: &mut Sheet, length: Option<&Expr<'_>>) -> Result<(), NoMemory>
    ensures { OnOk result (page_of sheet.new ≡ put (page_of sheet.old) (length_pieces (option_map (λ x. shape x.now) length.entry))) }
{
    let Some(length) = length else {
        return Ok(());
    };
    sheet.put_mark(Mark::OpenBracket)?;
    sheet.put_expr(length, 0)?;
    sheet.put_mark(Mark::CloseBracket)
}

#[cycle(initialisers)]
fn put_initialiser(sheet: &mut Sheet, init: &Init<'_>) -> Result<(), NoMemory>
    ensures { OnOk result (page_of sheet.new ≡ put (page_of sheet.old) (initialiser_pieces (init_shape init.now))) }
{
    match init {
        Init::Value(tree) => sheet.put_expr(tree, 0),
        Init::List { items, .. } => put_list(sheet, items),
    }
}

// Puts a list of initialisers in braces.
#[cycle(initialisers)]
#[tactic(auto, using(crate::proofs::Pages::put_append))]
fn put_list(sheet: &mut Sheet, items: &[Init<'_>]) -> Result<(), NoMemory>
    ensures { OnOk result (page_of sheet.new ≡ put (page_of sheet.old) (initialiser_pieces (list (init_shapes items.now) nowhere))) }
{
    sheet.put_mark(Mark::OpenBrace)?;
    put_initialisers(sheet, items)?;
    sheet.put_mark(Mark::CloseBrace)
}

#[cycle(initialisers)]
fn put_initialisers(sheet: &mut Sheet, items: &[Init<'_>]) -> Result<(), NoMemory>
    ensures { OnOk result (page_of sheet.new ≡ put (page_of sheet.old) (initialisers_pieces (init_shapes items.now))) }
{
    match items {
        [] => Ok(()),
        [first, rest @ ..] => {
            put_initialiser(sheet, first)?;
            put_further_initialisers(sheet, rest)
        }
    }
}

// Puts initialisers after another one.
#[cycle(initialisers)]
fn put_further_initialisers(sheet: &mut Sheet, items: &[Init<'_>]) -> Result<(), NoMemory>
    ensures { OnOk result (page_of sheet.new ≡ put (page_of sheet.old) (further_pieces (init_shapes items.now))) }
{
    'each: for init in items {
        sheet.put_mark(Mark::Comma)?;
        put_initialiser(sheet, init)?;
    }
    Ok(())
}

// Puts `=` and an initialiser, where there is one.
fn put_init(sheet: &mut Sheet, init: Option<&Init<'_>>) -> Result<(), NoMemory>
    ensures { OnOk result (page_of sheet.new ≡ put (page_of sheet.old) (init_pieces (option_map (λ x. init_shape x.now) init.entry))) }
{
    let Some(init) = init else {
        return Ok(());
    };
    sheet.put_assigned(None)?;
    put_initialiser(sheet, init)
}

/// Puts a declaration without its semicolon.
#[tactic(auto, using(crate::proofs::Pages::put_append))]
pub fn put_declaration(sheet: &mut Sheet, decl: &Decl<'_>) -> Result<(), NoMemory>
    ensures { OnOk result (page_of sheet.new ≡ put (page_of sheet.old) (declaration_pieces (decl_shape decl.now))) }
{
    put_type(sheet, &decl.ctype)?;
    sheet.put_word(decl.name.text)?;
    put_length(sheet, decl.ctype.length)?;
    put_attributes(sheet, decl.attrs)?;
    put_init(sheet, decl.init.as_ref())
}

/// Puts members of a struct.
pub fn put_members(sheet: &mut Sheet, members: &[Decl<'_>]) -> Result<(), NoMemory>
    ensures { OnOk result (page_of sheet.new ≡ put (page_of sheet.old) (members_pieces (decl_shapes members.now))) }
{
    'each: for member in members {
        put_declaration(sheet, member)?;
        sheet.put_mark(Mark::Semicolon)?;
    }
    Ok(())
}
