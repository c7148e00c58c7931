//! The one call that the program makes: it takes the words of the command line, a source and two sinks, and does what
//! the words ask.
//!
//! In go the words, the bytes of the source and memory; out come the bytes on the output, a line of complaint on the
//! error output, a status, and the programs that were read and made. The theorem is on `top`: where the words ask for a
//! program, what is written is the canonical text of one that is the same as the one that was read; under `optimise`,
//! `move`, `stages` and `ranges` its code motion evaluates nothing more often on any full path than an admissible
//! placement does, and under `divisions` so it is of divisions. Else it is the text of each stage, of ranges, the
//! report of a run or the summary of a trial; and every other reply has its cause.
#![tactic(auto)]

mod call;
mod cause;
mod command;
mod complaint;
mod dividing;
mod ending;
mod faultless;
mod laws;
mod making;
mod outcome;
mod pass_words;
mod ranges;
mod reply;
mod report_text;
mod stages;
mod trial;
mod work;

pub use call::top;
pub use cause::Cause;
pub use command::Command;
pub use complaint::{complain_of_memory, complain_of_write};
pub use dividing::best_divisions;
pub use ending::Ending;
pub use faultless::faultless_top;
pub use laws::{one_thing_is_due, text_has_one_reading};
pub use outcome::Outcome;
pub use reply::Reply;
