//! Where bytes come from and where they go: a reader and a writer that know whether they have failed.
//!
//! Bytes come in through a `Source` and go out through a `Sink`. These are thin wrappers, which remember whether the
//! reader or the writer has failed. Everything between them is a function of those bytes, and the contracts of the runs
//! say which.

mod sink;
mod source;

pub use sink::{Sink, WriteFault};
pub use source::{ReadFault, Source};
