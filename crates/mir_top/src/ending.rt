// How a call ended.
use crate::{Cause, Outcome};

/// How a call ended, before anything is written to the error output.
#[derive(Drop)]
pub enum Ending {
    /// The output was made and written.
    Done(Outcome),
    /// The output was made, and a write of it failed.
    CutShort,
    /// No output was made, and nothing written.
    Prevented(Cause),
}
