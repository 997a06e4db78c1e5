//! The reader of the tokens of a text.
ghost use Rattle.std.specs.Prelude.{◌≡◌, ◌≤◌};
ghost use Rattle.std.proofs.Props.{props};
ghost use Rattle.tsa_base.specs.declared.limits.TheConstants.{INPUT_LIMIT};
ghost use Rattle.tsa_tree.specs.tokens.Signs.{span_at};
ghost use Rattle.tsa_expr.specs.Source.{input};
ghost use Rattle.tsa_unit_heads.specs.Near.{AreNear};

use tsa_expr::Reader;

/// A reader of the tokens of a text of a size that is taken: each begins inside it.
#[derive(Clone, Copy)]
pub struct TextReader<'a, 't> {
    pub reader: Reader<'a, 't>,
    pub ghost near: { AreNear (input reader) } by { Prim.hlevel props },
}

impl<'a, 't> TextReader<'a, 't> {
    /// Where the token at a place begins.
    pub fn begin(self, at: u32) -> u32
        ensures is { result ≡ (span_at (input self.entry.reader) at).from }
        ensures near { result ≤ INPUT_LIMIT }
    {
        self.reader.span(at).from
    }
}
