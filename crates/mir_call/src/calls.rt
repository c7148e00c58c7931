// A call over memory alone.
ghost use Rattle.std.specs.Prelude.{ℕ, List};
ghost use Rattle.mir_top.specs.Commands.{word_bytes};
ghost use Rattle.mir_top.specs.Streams.{Stream};
ghost use Rattle.mir_call.specs.Answers.{HasAnswered, IsAnswerOf, kept_by};

use crate::CallAnswer;
use crate::sink::{GrowSink, LINE_ROOM, put};
use crate::spelled::words_in;
use mir_top::complain_of_memory;
use std::alloc::Global;

/// What is called: `is_call` says what a call with these words and this text does, and `otherwise` which words stand for
/// those that bytes do not spell.
pub(crate) trait Command {
    ghost is_call: { List (List ℕ) → List ℕ → Stream → Stream → ℕ → Type 0 };

    ghost otherwise: { List (List ℕ) };

    /// Its status with these words and this text.
    fn status(
        alloc: Global,
        words: &[String],
        text: &[u8],
        out: &mut GrowSink,
        err: &mut GrowSink,
    ) -> u8
        ensures { is_call (word_bytes words.now) text.now
            (kept_by out.old out.new) (kept_by err.old err.new) result };

    /// Its status with this text and the words that stand for those that bytes do not spell.
    fn status_otherwise(alloc: Global, text: &[u8], out: &mut GrowSink, err: &mut GrowSink) -> u8
        ensures { is_call otherwise text.now
            (kept_by out.old out.new) (kept_by err.old err.new) result };
}

/// Makes the call with the words that the bytes spell, and puts what it wrote into the rooms, as much as fits.
pub(crate) fn called<C: Command>(
    alloc: Global,
    words: &[u8],
    text: &[u8],
    out: &mut [u8],
    line: &mut [u8],
) -> CallAnswer
    ensures { HasAnswered (IsAnswerOf C.is_call C.otherwise words.now text.now)
        out.old out.new line.old line.new result }
{
    // The memory for the line is taken first, so that it can be written also where memory runs out.
    let mut complaint = GrowSink::new(alloc, LINE_ROOM);
    let mut output = GrowSink::new(alloc, 0);
    let status = status_of_spelled::<C>(alloc, words, text, &mut output, &mut complaint);
    CallAnswer {
        status,
        output: put(&output.bytes, out),
        complaint: put(&complaint.bytes, line),
    }
}

/// The status of the call with the words that the bytes spell.
fn status_of_spelled<C: Command>(
    alloc: Global,
    words: &[u8],
    text: &[u8],
    out: &mut GrowSink,
    err: &mut GrowSink,
) -> u8
    ensures { IsAnswerOf C.is_call C.otherwise words.now text.now
        (kept_by out.old out.new) (kept_by err.old err.new) result }
{
    match words_in(alloc, words) {
        Ok(Some(words)) => C::status(alloc, &words, text, out, err),
        Ok(None) => C::status_otherwise(alloc, text, out, err),
        Err(_) => complain_of_memory(err),
    }
}
