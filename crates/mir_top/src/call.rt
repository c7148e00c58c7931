// The top call.
ghost use Rattle.std.specs.Prelude.{◌≡◌, ◌+◌};
ghost use Rattle.mir_base.specs.Limits.{most_bytes};
ghost use Rattle.mir_outside.specs.Transfer.{TakesAtMost};
ghost use Rattle.mir_top.specs.Calls.{reply_at_end, complaint_at_end, refusal_with, HasEnded, WritesLine};
ghost use Rattle.mir_top.specs.Promises.{Promises};
ghost use Rattle.mir_top.specs.Commands.{word_bytes, Reads};
ghost use Rattle.mir_top.specs.Streams.{stream_of, Untouched};

use crate::complaint::{complain, complain_of_write};
use crate::work::prepare;
use crate::{Ending, Reply, text_has_one_reading};
use mir_outside::{Sink, Source, write_all};
use std::alloc::Global;

/// Does what the words ask. `optimise` writes the canonical text of the target of the program that is read, `stages`
/// that of the program at each stage, `move`, `divisions`, `tails` and `join` that of what code motion, the motion of
/// divisions, tails as loops and joined leaves make of it, `thorough` and `passes [PASS ..]` that of what turns and
/// these passes make of it; `ranges` writes where the temporaries of `move` live, `run STEPS [N ..]` the report of its
/// run, and `trial NUMBER UNITS` the summary of a program that the numbers draw. The text comes from the source, the
/// output goes to `out`, and with each status but 0, 3 and 4 one line goes to `err`.
///
/// The words are judged before anything is read, the text before anything is made of its program, and all of the output
/// is made before anything is written. What is read and made does not see `out` and `err`, and what writes is given the
/// bytes and the sink alone: so a fault of `err` changes neither the status nor the output, and once writing has begun
/// nothing is allocated.
///
/// `specs/Promises.antt` says what is promised of a call, `specs/Due.antt` what is due for which words and text, and
/// `specs/Complaints.antt` has the statuses and lines.
pub fn top<S: Source, K: Sink, E: Sink>(
    alloc: Global,
    words: &[String],
    source: &mut S,
    out: &mut K,
    err: &mut E,
) -> Reply
    ensures { Promises (record {
      words = word_bytes words.now;
      source = stream_of S.left S.faults source.old source.new;
      out = stream_of K.written K.faults out.old out.new;
      err = stream_of E.written E.faults err.old err.new;
      reply = result;
    }) }
{
    // Has no effect; carries the theorem that a text is that of one program or is refused for one cause.
    text_has_one_reading();
    let ending = attempt(alloc, words, source, out);
    conclude(ending, err)
}

/// Makes the output and writes it. It is not given the error output, and what writes is not given the allocator.
fn attempt<S: Source, K: Sink>(
    alloc: Global,
    words: &[String],
    source: &mut S,
    out: &mut K,
) -> Ending
    ensures most { TakesAtMost (S.left source.old) (S.left source.new) (most_bytes + 1) }
    ensures unread { ¬ Reads (word_bytes words.now) →
        Untouched (stream_of S.left S.faults source.old source.new) }
    ensures ended { HasEnded (word_bytes words.now)
        (stream_of S.left S.faults source.old source.new)
        (stream_of K.written K.faults out.old out.new) result }
{
    match prepare(alloc, words, source) {
        Ok(made) => match write_all(out, &made.output) {
            Ok(()) => Ending::Done(made.outcome),
            Err(_) => Ending::CutShort,
        },
        Err(cause) => Ending::Prevented(cause),
    }
}

/// The reply of a call that ended like this. A complaint is written to the error output, which does not allocate; the
/// reply is the same whatever the error output does.
fn conclude<E: Sink>(ending: Ending, err: &mut E) -> Reply
    ensures reply { result ≡ reply_at_end ending }
    ensures told { WritesLine (complaint_at_end ending)
        (stream_of E.written E.faults err.old err.new) }
{
    match ending {
        Ending::Done(outcome) => outcome.reply(),
        Ending::CutShort => refusal(complain_of_write(err)),
        Ending::Prevented(cause) => refusal(complain(&cause, err)),
    }
}

/// The reply without a trail, with this status.
fn refusal(status: u8) -> Reply
    ensures { result ≡ refusal_with status }
{
    Reply {
        status,
        trail: None,
        moved: None,
    }
}
