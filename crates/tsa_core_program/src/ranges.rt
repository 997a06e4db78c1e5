//! Where things stand in lists.

/// From an element of a list to another, which is behind it: 16 bytes.
#[derive(Clone, Copy, Debug, PartialEq, Eq)]
pub struct Range {
    pub from: usize,
    pub to: usize,
}

/// A body of a unit: its function's number, and where the unit's lists have its nodes, the kinds of the locals that it declares, which of
/// all its locals never change, and the numbers of its points' nodes: 72 bytes.
#[derive(Clone, Copy, Debug, PartialEq, Eq)]
pub struct BodyRange {
    pub function: u32,
    pub nodes: Range,
    pub kinds: Range,
    pub stable: Range,
    pub points: Range,
}

/// Where a body began: its first node, and how much two lists had before it: 24 bytes.
#[derive(Clone, Copy, Debug, PartialEq, Eq)]
pub struct Begin {
    pub node: usize,
    pub kinds: usize,
    pub points: usize,
}
