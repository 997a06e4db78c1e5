//! What a point says of a path by itself.
ghost use Rattle.std.specs.Prelude.{◌≡◌};
ghost use Rattle.tsa_rules.specs.Marks.{no_mark, if_claims, if_tries, with_attribute, with_declaration, with_left, with_right};

use crate::attributes::{claims, is_try};
use crate::kinds::Kinds;
use tsa_tree::attr::AttrKind;

/// What an attribute claims, apart from its path: of a try, also the answer with which it has taken its lock.
#[derive(Clone, Copy)]
pub struct Claim {
    pub kind: AttrKind,
    pub success: bool,
}

/// What a point says of a path: which kinds of attributes of the called function name it, the kind of the first that does, the first that
/// claims it, the first try of it, and whether more than one claims it; whether it guards a read that is made before the call, and a read
/// or a write after it; and whether it mentions the local that is declared there.
#[derive(Clone, Copy)]
pub struct Mark {
    pub kinds: Kinds,
    pub named: Option<AttrKind>,
    pub claim: Option<Claim>,
    pub tried: Option<Claim>,
    pub is_claimed_twice: bool,
    pub reads_before: bool,
    pub reads_after: bool,
    pub writes: bool,
    pub is_declared: bool,
}

impl Claim {
    /// The attribute, where it claims its lock.
    fn if_claims(self) -> Option<Claim>
        ensures { result ≡ if_claims self }
    {
        if claims(self.kind) { Some(self) } else { None }
    }

    /// The attribute, where it is a try.
    fn if_tries(self) -> Option<Claim>
        ensures { result ≡ if_tries self }
    {
        if is_try(self.kind) { Some(self) } else { None }
    }
}

impl Mark {
    /// The mark of a path of which the point says nothing.
    pub fn none() -> Mark
        ensures { result ≡ no_mark }
    {
        Mark {
            kinds: Kinds::none(),
            named: None,
            claim: None,
            tried: None,
            is_claimed_twice: false,
            reads_before: false,
            reads_after: false,
            writes: false,
            is_declared: false,
        }
    }

    /// The same, where an attribute behind the others names the path.
    pub fn with_attribute(self, attribute: Claim) -> Mark
        ensures { result ≡ with_attribute self attribute }
    {
        let kind = attribute.kind;
        let is_claimed_again = claims(kind) && self.claim.is_some();
        Mark {
            kinds: self.kinds.with(kind),
            named: self.named.or(Some(kind)),
            claim: self.claim.or(attribute.if_claims()),
            tried: self.tried.or(attribute.if_tries()),
            is_claimed_twice: self.is_claimed_twice || is_claimed_again,
            ..self
        }
    }

    /// The same, where the path guards one more access that isn't made on the left side of an assignment.
    pub fn with_right(self, is_write: bool) -> Mark
        ensures { result ≡ with_right self is_write }
    {
        Mark {
            reads_before: self.reads_before || !is_write,
            ..self
        }
    }

    /// The same, where the path guards one more access that is made on the left side of an assignment.
    pub fn with_left(self, is_write: bool) -> Mark
        ensures { result ≡ with_left self is_write }
    {
        Mark {
            reads_after: self.reads_after || !is_write,
            writes: self.writes || is_write,
            ..self
        }
    }

    /// The same, where the path mentions the local that is declared.
    pub fn with_declaration(self) -> Mark
        ensures { result ≡ with_declaration self }
    {
        Mark {
            is_declared: true,
            ..self
        }
    }
}
