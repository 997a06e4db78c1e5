//! Items and whole units are written as canonical text.
ghost use Rattle.std.specs.Prelude.{◌≡◌, ◌++◌, ◌∷◌, [], OnOk, IfOk};
ghost use Rattle.std.specs.Option.{option_map};
ghost use Rattle.tsa_tree.specs.attributes.Syntax.{attr_shapes};
ghost use Rattle.tsa_tree.specs.expressions.Syntax.{nowhere};
ghost use Rattle.tsa_tree.specs.declarations.Shapes.{type_shape, decl_shape, decl_shapes, param_shape, param_shapes, enumerator_shape};
ghost use Rattle.tsa_tree.specs.declarations.Shapes.{enumerator_shapes, head_shape};
ghost use Rattle.tsa_tree.specs.expressions.Shapes.{name_shape, shape};
ghost use Rattle.tsa_tree.specs.units.Shapes.{function_shape, item_shape, item_shapes};
ghost use Rattle.tsa_tree.specs.units.Syntax.{structure_item, alias_item, enumeration_item, global_item};
ghost use Rattle.tsa_print.specs.Canonical.{mark};
ghost use Rattle.tsa_print.specs.declared.mark.Mark.TheVariants as marks;
ghost use Rattle.tsa_print.specs.DeclarationPieces.{name_pieces, parameter_pieces, further_parameters, parameters_pieces, head_pieces};
ghost use Rattle.tsa_print.specs.DeclarationPieces.{value_pieces, constant_pieces, further_constants, constants_pieces, typedef_pieces};
ghost use Rattle.tsa_print.specs.UnitPieces.{item_pieces, unit_pieces, canonical_unit};
ghost use Rattle.tsa_print.specs.Sheets.{page_of, put};

use crate::attributes::{put_attributes, put_name};
use crate::declarations::{put_declaration, put_members, put_type};
use crate::mark::Mark;
use crate::sheet::Sheet;
use crate::statements::put_block;
use std::alloc::Global;
use tsa_base::NoMemory;
use tsa_tree::decl::Decl;
use tsa_tree::expr::{Expr, Name};
use tsa_tree::item::{AliasDef, EnumDef, Enumerator, FnTree, Item, Param, StructDef, UnitTree};

#[tactic(auto, using(crate::proofs::Pages::put_append))]
fn put_parameter(sheet: &mut Sheet, param: &Param<'_>) -> Result<(), NoMemory>
    ensures { OnOk result (page_of sheet.new ≡ put (page_of sheet.old) (parameter_pieces (param_shape param.now))) }
{
    put_type(sheet, &param.ctype)?;
    put_name(sheet, param.name)
}

fn put_further_parameters(sheet: &mut Sheet, params: &[Param<'_>]) -> Result<(), NoMemory>
    ensures { OnOk result (page_of sheet.new ≡ put (page_of sheet.old) (further_parameters (param_shapes params.now))) }
{
    'each: for param in params {
        sheet.put_mark(Mark::Comma)?;
        put_parameter(sheet, param)?;
    }
    Ok(())
}

fn put_parameters(sheet: &mut Sheet, params: &[Param<'_>]) -> Result<(), NoMemory>
    ensures { OnOk result (page_of sheet.new ≡ put (page_of sheet.old) (parameters_pieces (param_shapes params.now))) }
{
    match params {
        [] => sheet.put_word(b"void"),
        [first, rest @ ..] => {
            put_parameter(sheet, first)?;
            put_further_parameters(sheet, rest)
        }
    }
}

#[tactic(auto, using(crate::proofs::Pages::put_append))]
fn put_head(sheet: &mut Sheet, function: &FnTree<'_>) -> Result<(), NoMemory>
    ensures { OnOk result (page_of sheet.new ≡ put (page_of sheet.old) (head_pieces (head_shape function.now))) }
{
    put_type(sheet, &function.result)?;
    sheet.put_word(function.name.text)?;
    sheet.put_mark(Mark::OpenCall)?;
    put_parameters(sheet, function.params)?;
    sheet.put_mark(Mark::CloseParenthesis)?;
    put_attributes(sheet, function.attrs)
}

// Puts a function, with its body where it has one.
#[tactic(auto, using(crate::proofs::Pages::put_append))]
fn put_function(sheet: &mut Sheet, function: &FnTree<'_>) -> Result<(), NoMemory>
    ensures { OnOk result (page_of sheet.new ≡ put (page_of sheet.old) (item_pieces (function_shape function.now))) }
{
    put_head(sheet, function)?;
    match function.body {
        Some(body) => put_block(sheet, body, Mark::CloseBlock),
        None => sheet.put_mark(Mark::Semicolon),
    }
}

// Puts `=` and the value of an enumerator, where there is one.
fn put_value(sheet: &mut Sheet, value: Option<&Expr<'_>>) -> Result<(), NoMemory>
    ensures { OnOk result (page_of sheet.new ≡ put (page_of sheet.old) (value_pieces (option_map (λ x. shape x.now) value.entry))) }
{
    let Some(value) = value else {
        return Ok(());
    };
    sheet.put_assigned(None)?;
    sheet.put_expr(value, 0)
}

fn put_constant(sheet: &mut Sheet, constant: &Enumerator<'_>) -> Result<(), NoMemory>
    ensures { OnOk result (page_of sheet.new ≡ put (page_of sheet.old) (constant_pieces (enumerator_shape constant.now))) }
{
    sheet.put_word(constant.name.text)?;
    put_value(sheet, constant.value.as_ref())
}

fn put_further_constants(sheet: &mut Sheet, constants: &[Enumerator<'_>]) -> Result<(), NoMemory>
    ensures { OnOk result (page_of sheet.new ≡ put (page_of sheet.old) (further_constants (enumerator_shapes constants.now))) }
{
    'each: for constant in constants {
        sheet.put_mark(Mark::Comma)?;
        put_constant(sheet, constant)?;
    }
    Ok(())
}

fn put_constants(sheet: &mut Sheet, constants: &[Enumerator<'_>]) -> Result<(), NoMemory>
    ensures { OnOk result (page_of sheet.new ≡ put (page_of sheet.old) (constants_pieces (enumerator_shapes constants.now))) }
{
    match constants {
        [] => Ok(()),
        [first, rest @ ..] => {
            put_constant(sheet, first)?;
            put_further_constants(sheet, rest)
        }
    }
}

// Puts the word `typedef`, where there is an alias.
fn put_typedef(sheet: &mut Sheet, alias: Option<Name<'_>>) -> Result<(), NoMemory>
    ensures { OnOk result (page_of sheet.new ≡ put (page_of sheet.old) (typedef_pieces (option_map name_shape alias.entry))) }
{
    match alias {
        Some(_) => sheet.put_word(b"typedef"),
        None => Ok(()),
    }
}

// Puts an alias, where there is one, and the semicolon after it.
#[tactic(auto, using(crate::proofs::Pages::put_append))]
fn put_alias_end(sheet: &mut Sheet, alias: Option<Name<'_>>) -> Result<(), NoMemory>
    ensures { OnOk result (page_of sheet.new
        ≡ put (page_of sheet.old) (name_pieces (option_map name_shape alias.entry) ++ mark marks.Semicolon ∷ [])) }
{
    put_name(sheet, alias)?;
    sheet.put_mark(Mark::Semicolon)
}

#[tactic(auto, using(crate::proofs::Pages::put_append))]
fn put_structure(sheet: &mut Sheet, structure: &StructDef<'_>) -> Result<(), NoMemory>
    ensures { let s = structure.now in OnOk result
        (page_of sheet.new ≡ put (page_of sheet.old)
        (item_pieces (structure_item (option_map name_shape s.tag) (option_map name_shape s.alias) (attr_shapes s.attrs.now)
        (decl_shapes s.members.now) nowhere))) }
{
    put_typedef(sheet, structure.alias)?;
    sheet.put_word(b"struct")?;
    put_attributes(sheet, structure.attrs)?;
    put_name(sheet, structure.tag)?;
    sheet.put_mark(Mark::OpenBlock)?;
    put_members(sheet, structure.members)?;
    sheet.put_mark(Mark::CloseStruct)?;
    put_alias_end(sheet, structure.alias)
}

#[tactic(auto, using(crate::proofs::Pages::put_append))]
fn put_enumeration(sheet: &mut Sheet, enumeration: &EnumDef<'_>) -> Result<(), NoMemory>
    ensures { let e = enumeration.now in OnOk result
        (page_of sheet.new ≡ put (page_of sheet.old)
        (item_pieces (enumeration_item (option_map name_shape e.tag) (option_map name_shape e.alias) (enumerator_shapes e.values.now)
        nowhere))) }
{
    put_typedef(sheet, enumeration.alias)?;
    sheet.put_word(b"enum")?;
    put_name(sheet, enumeration.tag)?;
    sheet.put_mark(Mark::OpenBrace)?;
    put_constants(sheet, enumeration.values)?;
    sheet.put_mark(Mark::CloseBrace)?;
    put_alias_end(sheet, enumeration.alias)
}

#[tactic(auto, using(crate::proofs::Pages::put_append))]
fn put_alias(sheet: &mut Sheet, alias: &AliasDef<'_>) -> Result<(), NoMemory>
    ensures { let a = alias.now in OnOk result
        (page_of sheet.new ≡ put (page_of sheet.old) (item_pieces (alias_item (name_shape a.name) (type_shape a.ctype) nowhere))) }
{
    sheet.put_word(b"typedef")?;
    put_type(sheet, &alias.ctype)?;
    sheet.put_word(alias.name.text)?;
    sheet.put_mark(Mark::Semicolon)
}

#[tactic(auto, using(crate::proofs::Pages::put_append))]
fn put_global(sheet: &mut Sheet, decl: &Decl<'_>) -> Result<(), NoMemory>
    ensures { OnOk result (page_of sheet.new ≡ put (page_of sheet.old) (item_pieces (global_item (decl_shape decl.now)))) }
{
    put_declaration(sheet, decl)?;
    sheet.put_mark(Mark::Semicolon)
}

fn put_item(sheet: &mut Sheet, item: &Item<'_>) -> Result<(), NoMemory>
    ensures { OnOk result (page_of sheet.new ≡ put (page_of sheet.old) (item_pieces (item_shape item.now))) }
{
    match item {
        Item::Structure(structure) => put_structure(sheet, structure),
        Item::Alias(alias) => put_alias(sheet, alias),
        Item::Enumeration(enumeration) => put_enumeration(sheet, enumeration),
        Item::Global(decl) => put_global(sheet, decl),
        Item::Function(function) => put_function(sheet, function),
    }
}

fn put_items(sheet: &mut Sheet, items: &[Item<'_>]) -> Result<(), NoMemory>
    ensures { OnOk result (page_of sheet.new ≡ put (page_of sheet.old) (unit_pieces (item_shapes items.now))) }
{
    'each: for item in items {
        put_item(sheet, item)?;
    }
    Ok(())
}

/// The canonical text of a unit. Want of memory is the only error. Recursion is as deep as the tree is high.
#[tactic(auto, using(crate::proofs::Pages::put_laid), unfolding(crate::specs::UnitPieces::canonical_unit))]
pub fn print_unit(alloc: Global, unit: &UnitTree<'_>) -> Result<Vec<u8>, NoMemory>
    ensures text { IfOk result (λ text. text.items ≡ canonical_unit (item_shapes unit.now.items.now)) }
{
    let mut sheet = Sheet::new(alloc);
    put_items(&mut sheet, unit.items)?;
    Ok(sheet.text)
}
