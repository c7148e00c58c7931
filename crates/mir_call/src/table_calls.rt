// The call of `tables`.
ghost use Rattle.std.specs.Prelude.{◌≢◌, [], ◌∷◌};
ghost use Rattle.mir_call.specs.Answers.{HasAnswered, HasTabled, IsTableAnswer};

use crate::CallAnswer;
use crate::calls::{Command, called};
use crate::sink::GrowSink;
use crate::source::SliceSource;
use mir_table::tables;
use std::alloc::Global;

/// Puts the tables that the words ask for of the program of this text into `out`, and the line of complaint into
/// `line`, as much of each as fits. The words are each ended by a zero byte; where the bytes spell none, it does what
/// is done for a word that asks for no tables. The status is that of `tables`; 6 never comes, and 7 says that there was
/// no memory to keep the output.
pub fn call_tables(
    alloc: Global,
    words: &[u8],
    text: &[u8],
    out: &mut [u8],
    line: &mut [u8],
) -> CallAnswer
    ensures answers { HasAnswered (IsTableAnswer words.now text.now)
        out.old out.new line.old line.new result }
    ensures no_read_fault { result.status ≢ 6 }
{
    called::<Tables>(alloc, words, text, out, line)
}

/// `tables`, with one empty word where the bytes spell none.
struct Tables;

impl Command for Tables {
    ghost is_call = { HasTabled };

    ghost otherwise = { [] ∷ [] };

    fn status(
        alloc: Global,
        words: &[String],
        text: &[u8],
        out: &mut GrowSink,
        err: &mut GrowSink,
    ) -> u8 {
        let mut source = SliceSource { left: text };
        tables(alloc, words, &mut source, out, err)
    }

    fn status_otherwise(alloc: Global, text: &[u8], out: &mut GrowSink, err: &mut GrowSink) -> u8 {
        let mut source = SliceSource { left: text };
        tables(alloc, &[String::new(alloc)], &mut source, out, err)
    }
}
