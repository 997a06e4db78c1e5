//! The tokens of a text.
ghost use Rattle.std.specs.Prelude.{◌≤◌, length};
ghost use Rattle.std.proofs.Props.{props};
ghost use Rattle.tsa_base.specs.declared.limits.TheConstants.{INPUT_LIMIT};
ghost use Rattle.tsa_tree.specs.tokens.Signs.{lexemes};
ghost use Rattle.tsa_tree.specs.tokens.Texts.{AreOfText};
ghost use Rattle.tsa_unit_heads.specs.Near.{AreNear};

use tsa_base::Token;

/// The tokens of a text of a size that is taken: they are no more than its bytes, and each begins inside it.
#[derive(Clone, Copy)]
pub struct Text<'t> {
    pub tokens: &'t [Token<'t>],
    pub ghost of_text: { ∥ AreOfText (lexemes tokens.now) ∥₁ },
    pub ghost room: { length tokens.now ≤ INPUT_LIMIT },
    pub ghost near: { AreNear (lexemes tokens.now) } by { Prim.hlevel props },
}
