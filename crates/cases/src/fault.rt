//! Why the cases of a file are not judged to their end.

use std::alloc::{AllocError, AllocFailed};
use std::fmt;
use thiserror::Error;
use tsa_base::NoMemory;

/// What is wrong with a line, or that there is no memory for its case.
#[derive(Clone, Copy, Debug, PartialEq, Eq, Error)]
pub enum Fault {
    #[error("no memory")]
    NoMemory,
    #[error("the line begins with no mark and a blank")]
    Mark,
    #[error("a backslash begins no escape")]
    Escape,
    #[error("a repetition is not closed, or stands in another one")]
    Repetition,
    #[error("a cut stands in an answer, or a place in a unit")]
    Misplaced,
    #[error("no front has this name")]
    Front,
    #[error("a status is a number, or one and the word twice")]
    Status,
    #[error("the block has a second status: a blank line is missing")]
    Second,
    #[error("the block has a unit or an answer and no status, or a status and no unit")]
    Part,
}

impl From<AllocError> for Fault {
    fn from(_: AllocError) -> Self {
        Fault::NoMemory
    }
}

impl From<fmt::Error> for Fault {
    fn from(_: fmt::Error) -> Self {
        Fault::NoMemory
    }
}

impl From<NoMemory> for Fault {
    fn from(_: NoMemory) -> Self {
        Fault::NoMemory
    }
}

impl<T: Drop> From<AllocFailed<T>> for Fault {
    fn from(_: AllocFailed<T>) -> Self {
        Fault::NoMemory
    }
}
