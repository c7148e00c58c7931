//! Calls over memory alone, for callers that are no Rattle code: words and a text in, and out come the output, the line
//! of complaint and the status, of `mir_top::top` by `call_top` and of `mir_table::tables` by `call_tables`.
//!
//! The theorem is on these two: the call is one of which all promises of `top` or of `tables` hold, with these words
//! and this text, what it wrote stands in the rooms of the caller as far as it fits, with its full length, and no read
//! failed. Where there is no memory for the words, that is said, with status 8.
#![tactic(auto)]

mod answers;
mod calls;
mod sink;
mod source;
mod spelled;
mod table_calls;
mod top_calls;

pub use answers::CallAnswer;
pub use table_calls::call_tables;
pub use top_calls::call_top;
