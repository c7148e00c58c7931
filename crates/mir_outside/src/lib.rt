//! The outside of the program: where its bytes and words come from, and where its bytes go.
//!
//! Bytes come in by a `Source` and go out by a `Sink`. A device outside may fail at any call, so each keeps a count of
//! its faults: `Failed` is returned only where that count rose in the call, or has saturated. `StdSource` and `StdSink`
//! are those over std's readers and writers, and `MemSource` and `MemSink` those in memory, which fail at the calls
//! that are listed when they are made. `FaultlessSource` and `FaultlessSink` never fail.
//!
//! The theorem is that `read_all` returns all bytes of its source to the end, and that `write_all` writes all of its
//! piece, or that they say why not. `TooLong` comes exactly where one byte more than the limit came, and `Failed` where
//! the device failed. Where the bytes of a source or a sink can be observed, those that were then taken or written are
//! a prefix of those that there were, and no more than one byte beyond the limit is taken.
#![tactic(auto)]

mod command_line;
mod faultless;
mod memory;
mod sink;
mod source;
mod transfer;

pub use command_line::{status_without_words, words};
pub use faultless::{FaultlessSink, FaultlessSource};
pub use memory::{MemSink, MemSource};
pub use sink::{Sink, StdSink};
pub use source::{Source, StdSource};
use std::alloc::AllocError;
use thiserror::Error;
pub use transfer::{ReadFault, read_all, write_all};

/// There is not enough memory: the allocator refused.
pub type Memory = AllocError;

/// A call of a source or a sink failed. It comes only where the count of faults rose in that call, or has saturated.
#[derive(Clone, Copy, Debug, PartialEq, Eq, Error)]
#[error("the call failed")]
pub struct Failed;
