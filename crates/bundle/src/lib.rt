// Bundles: loading, by the readers of the kinds, and writing.

#![tactic(auto)]

pub mod writer;

pub use loading::load;
pub use reading::BadLine;
pub use writer::{measure, write};

// Why a record is not written: no bundle loads to it, or the buffer is too short, with the length needed.
#[derive(Clone, Copy, PartialEq, Eq)]
pub enum NotWritten {
    NotLoadable,
    ShortBuffer(usize),
}
