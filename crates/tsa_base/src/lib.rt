//! What all parts of the analyser share: tokens, limits, and the outside as a source and a sink.
#![tactic(auto)]

mod honest;
mod laws;
mod limits;
mod memory;
mod places;
mod read;
mod stream;
mod token;
mod traits;
mod value;
mod write;

pub use honest::{HonestSink, HonestSource};
pub use laws::{
    limits_are_as_written, texts_fall_into_pieces, the_next_token_is_the_longest,
    tokens_are_as_written,
};
pub use limits::{
    CAPABILITY_LIMIT, FRAME_LIMIT, FUNCTION_LIMIT, INPUT_LIMIT, NESTING_LIMIT, PENDING_LIMIT,
    PLACE_LIMIT, POINT_LIMIT, THREAD_LIMIT, TRY_LIMIT, TURN_LIMIT,
};
pub use memory::{MemorySink, MemorySource};
pub use places::{LineStarts, Place};
pub use read::{ReadTrouble, read_all};
pub use stream::{ReaderSource, WriterSink};
pub use token::{LexCode, Span, Token, TokenKind};
pub use traits::{Failed, NoMemory, PushTrouble, Sink, Source};
pub use value::Value;
pub use write::write_all;
