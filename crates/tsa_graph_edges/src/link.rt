//! Edges between the points of a body.

/// How a point is left: with no choice, by a test's truth, or by a switch's value.
#[derive(Clone, Copy, Debug, PartialEq, Eq)]
pub enum Outcome {
    Next,
    Yes,
    No,
    Chosen(i32),
    Rest,
}

/// An edge of a body's control, from one point to another for an outcome.
#[derive(Clone, Copy)]
pub struct Link {
    pub from: u32,
    pub outcome: Outcome,
    pub to: u32,
}
