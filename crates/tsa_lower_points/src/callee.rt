//! What is known of functions that are called.
use tsa_tree::attr::AttrKind;
use tsa_tree::kind::Kind;

/// What a function without a body does to the lock that its first argument points to, by its attribute.
#[derive(Clone, Copy)]
pub struct LockDeed {
    pub kind: AttrKind,
    pub success: bool,
}

/// A function that is called: whether it has a body, the kind of its result, and what it does to a lock, if it does.
#[derive(Clone, Copy)]
pub struct Callee {
    pub has_body: bool,
    pub result: Kind,
    pub lock: Option<LockDeed>,
}
