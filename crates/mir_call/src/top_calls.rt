// The call of `top`.
ghost use Rattle.std.specs.Prelude.{◌≢◌, []};
ghost use Rattle.mir_call.specs.Answers.{HasAnswered, HasCalled, IsAnswer};

use crate::CallAnswer;
use crate::calls::{Command, called};
use crate::sink::GrowSink;
use crate::source::SliceSource;
use mir_top::top;
use std::alloc::Global;

/// Does what the words ask with this text, and puts the output and the line of complaint into the rooms, as much of
/// each as fits. The words are each ended by a zero byte; where the bytes spell none, it does what is done for no
/// words. The status is that of `top`; 6 never comes, and 7 says that there was no memory to keep the output.
pub fn call_top(
    alloc: Global,
    words: &[u8],
    text: &[u8],
    out: &mut [u8],
    line: &mut [u8],
) -> CallAnswer
    ensures answers { HasAnswered (IsAnswer words.now text.now)
        out.old out.new line.old line.new result }
    ensures no_read_fault { result.status ≢ 6 }
{
    called::<Top>(alloc, words, text, out, line)
}

/// `top`, with no words where the bytes spell none.
struct Top;

impl Command for Top {
    ghost is_call = { HasCalled };

    ghost otherwise = { [] };

    fn status(
        alloc: Global,
        words: &[String],
        text: &[u8],
        out: &mut GrowSink,
        err: &mut GrowSink,
    ) -> u8 {
        let mut source = SliceSource { left: text };
        top(alloc, words, &mut source, out, err).status
    }

    fn status_otherwise(alloc: Global, text: &[u8], out: &mut GrowSink, err: &mut GrowSink) -> u8 {
        let mut source = SliceSource { left: text };
        top(alloc, &[], &mut source, out, err).status
    }
}
