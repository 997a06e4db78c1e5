//! The tokens of canonical text that have one text each, by what their neighbours and lines have to know.
ghost use Rattle.std.specs.Prelude.{◌≡◌};
ghost use Rattle.tsa_print.specs.Canonical.{mark, mark_text, binds_left, binds_right};
ghost use Rattle.tsa_print.specs.Layout.{ends_line, opens_level, closes_level};

/// A token with one text.
#[derive(Clone, Copy)]
pub enum Mark {
    Comma,
    OpenParenthesis,
    /// The parenthesis after a callee, a function's name or a macro word.
    OpenCall,
    CloseParenthesis,
    OpenBracket,
    CloseBracket,
    /// The star of a declarator.
    Star,
    Colon,
    /// A semicolon that ends a line.
    Semicolon,
    /// A semicolon between the parentheses of a `for`.
    ForSemicolon,
    /// The braces of an initialiser or an enum.
    OpenBrace,
    CloseBrace,
    /// The opening brace of a block or a struct.
    OpenBlock,
    /// The closing brace of a block.
    CloseBlock,
    /// The closing brace of a block before the `while` of its `do`.
    CloseBody,
    CloseStruct,
}

impl Mark {
    pub fn text(self) -> &'static [u8]
        ensures { result.now ≡ mark_text self }
    {
        match self {
            Mark::Comma => b",",
            Mark::OpenParenthesis | Mark::OpenCall => b"(",
            Mark::CloseParenthesis => b")",
            Mark::OpenBracket => b"[",
            Mark::CloseBracket => b"]",
            Mark::Star => b"*",
            Mark::Colon => b":",
            Mark::Semicolon | Mark::ForSemicolon => b";",
            Mark::OpenBrace | Mark::OpenBlock => b"{",
            Mark::CloseBrace | Mark::CloseBlock | Mark::CloseBody | Mark::CloseStruct => b"}",
        }
    }

    /// Whether no blank stands before it.
    pub fn binds_left(self) -> bool
        ensures { result ≡ binds_left (mark self) }
    {
        match self {
            Mark::Comma
            | Mark::OpenCall
            | Mark::CloseParenthesis
            | Mark::OpenBracket
            | Mark::CloseBracket
            | Mark::Colon
            | Mark::Semicolon
            | Mark::ForSemicolon => true,
            _ => false,
        }
    }

    /// Whether no blank stands after it.
    pub fn binds_right(self) -> bool
        ensures { result ≡ binds_right (mark self) }
    {
        match self {
            Mark::OpenParenthesis | Mark::OpenCall | Mark::OpenBracket | Mark::Star => true,
            _ => false,
        }
    }

    /// Whether it is the last token of its line.
    pub fn ends_line(self) -> bool
        ensures { result ≡ ends_line (mark self) }
    {
        match self {
            Mark::OpenBlock | Mark::CloseBlock | Mark::Semicolon => true,
            _ => false,
        }
    }

    /// Whether it opens a block or a struct.
    pub fn opens_level(self) -> bool
        ensures { result ≡ opens_level (mark self) }
    {
        match self {
            Mark::OpenBlock => true,
            _ => false,
        }
    }

    /// Whether it closes a block or a struct.
    pub fn closes_level(self) -> bool
        ensures { result ≡ closes_level (mark self) }
    {
        match self {
            Mark::CloseBlock | Mark::CloseBody | Mark::CloseStruct => true,
            _ => false,
        }
    }
}
