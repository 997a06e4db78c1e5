//! What the grammar sees of a token.

use crate::attr::AttrKind;
use crate::expr::BinaryOp;

/// What a token means to the grammar.
#[derive(Clone, Copy, Debug, PartialEq, Eq)]
pub enum Sign {
    /// Past the last token.
    End,
    /// A token that no unit has.
    Other,
    /// A word that is neither reserved nor the name of a type.
    Name,
    /// The name of a type, as an earlier `typedef` gave it (C11 6.7.8).
    TypeName,
    Number,
    Null,
    Text,
    Open,
    Close,
    OpenBracket,
    CloseBracket,
    OpenBrace,
    CloseBrace,
    Comma,
    Semicolon,
    Colon,
    Dot,
    Arrow,
    /// `!`
    Not,
    /// `~`
    Flip,
    /// A binary operator. `-`, `&` and `*` are prefix operators too.
    Operator(BinaryOp),
    /// `=`
    Equals,
    /// A compound assignment, with its operator.
    Assign(BinaryOp),
    /// `++` or `--`, with the operator that it stands for.
    Step(BinaryOp),
    Keyword(Keyword),
    /// `__attribute__`
    Attribute,
    /// The macro word of an attribute.
    Macro(AttrKind),
    /// The macro word of an attribute that is left out.
    LeftOutMacro,
}

/// The keywords of the language (C11 6.4.1). Others are reserved, and no unit has them.
#[derive(Clone, Copy, Debug, PartialEq, Eq)]
pub enum Keyword {
    Typedef,
    Struct,
    Enum,
    Static,
    Extern,
    Inline,
    Const,
    Int,
    Unsigned,
    Signed,
    Void,
    If,
    Else,
    While,
    Do,
    For,
    Switch,
    Case,
    Default,
    Break,
    Continue,
    Goto,
    Return,
}

/// What a word means in a list of attributes.
#[derive(Clone, Copy, Debug, PartialEq, Eq)]
pub enum Meaning {
    /// An attribute of thread safety.
    Known(AttrKind),
    /// An attribute of thread safety that is left out.
    LeftOut,
    /// Anything else, which says nothing of threads.
    Ignored,
}
