//! Items are put at the end of lists.
ghost use Rattle.std.specs.Prelude.{◌≡◌, ◌++◌, ◌∷◌, [], length, take, OnOk, OnErr, Err};

use std::alloc::Allocator;
use tsa_decl_declarators::keep;
use tsa_expr::SyntaxRefusal;
use tsa_tree::decl::Decl;
use tsa_tree::item::{AliasDef, EnumDef, FnTree, Item, StructDef};

/// One item more at the end of a list, a global.
pub fn keep_global<'a>(list: &mut Vec<Item<'a>>, decl: Decl<'a>) -> Result<(), SyntaxRefusal>
    ensures gives { OnOk result (list.new.items ≡ list.old.items ++ Item.Global decl.entry ∷ []) }
    ensures kept { OnErr result (list.new.items ≡ list.old.items) }
    ensures memory { OnErr result (result ≡ Err SyntaxRefusal.NoMemory) }
{
    keep(list, Item::Global(decl))
}

/// One item more at the end of a list, a struct.
pub fn keep_structure<'a>(
    list: &mut Vec<Item<'a>>,
    item: StructDef<'a>,
) -> Result<(), SyntaxRefusal>
    ensures gives { OnOk result (list.new.items ≡ list.old.items ++ Item.Structure item.entry ∷ []) }
    ensures kept { OnErr result (list.new.items ≡ list.old.items) }
    ensures memory { OnErr result (result ≡ Err SyntaxRefusal.NoMemory) }
{
    keep(list, Item::Structure(item))
}

/// One item more at the end of a list, an enum.
pub fn keep_enumeration<'a>(
    list: &mut Vec<Item<'a>>,
    item: EnumDef<'a>,
) -> Result<(), SyntaxRefusal>
    ensures gives { OnOk result (list.new.items ≡ list.old.items ++ Item.Enumeration item.entry ∷ []) }
    ensures kept { OnErr result (list.new.items ≡ list.old.items) }
    ensures memory { OnErr result (result ≡ Err SyntaxRefusal.NoMemory) }
{
    keep(list, Item::Enumeration(item))
}

/// One item more at the end of a list, an alias.
pub fn keep_alias<'a>(list: &mut Vec<Item<'a>>, item: AliasDef<'a>) -> Result<(), SyntaxRefusal>
    ensures gives { OnOk result (list.new.items ≡ list.old.items ++ Item.Alias item.entry ∷ []) }
    ensures kept { OnErr result (list.new.items ≡ list.old.items) }
    ensures memory { OnErr result (result ≡ Err SyntaxRefusal.NoMemory) }
{
    keep(list, Item::Alias(item))
}

/// One item more at the end of a list, a function.
pub fn keep_function<'a>(list: &mut Vec<Item<'a>>, head: &FnTree<'a>) -> Result<(), SyntaxRefusal>
    ensures gives { OnOk result (list.new.items ≡ list.old.items ++ Item.Function head.now ∷ []) }
    ensures kept { OnErr result (list.new.items ≡ list.old.items) }
    ensures memory { OnErr result (result ≡ Err SyntaxRefusal.NoMemory) }
{
    keep(list, Item::Function(*head))
}

/// How many stand in a list, which is lent whole: a shared reference of a list of items costs the check ten seconds.
pub fn length_of<T: Copy, A: Allocator>(list: &mut Vec<T, A>) -> usize
    ensures is { result ≡ length list.old.items }
    ensures same { list.new.items ≡ list.old.items }
{
    list.len()
}

/// What was read at the end of a list, on; where it was refused, the list gets the length that it had before.
pub fn cut_if_refused<T: Copy, A: Allocator>(
    list: &mut Vec<T, A>,
    before: usize,
    read: Result<u32, SyntaxRefusal>,
) -> Result<u32, SyntaxRefusal>
    ensures is { result ≡ read }
    ensures whole { OnOk read (list.new.items ≡ list.old.items) }
    ensures cut { OnErr read (list.new.items ≡ take before list.old.items) }
{
    if read.is_err() {
        list.truncate(before);
    }
    read
}
