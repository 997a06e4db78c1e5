//! Why a table takes no path.

use tsa_place_model::Path;

/// Why a path got no number: it is new and there is no room for it, or memory is wanted. The path comes back.
#[derive(Drop)]
pub enum InternRefusal {
    Full(Path),
    NoMemory(Path),
}
