//! The program `mir`: it hands the words of its command line and the standard streams to `mir_top::top`, and ends with
//! the status that this answers. Where it cannot get the words it writes nothing, and ends with status 8 if memory ran
//! out and with status 1 otherwise.
//!
//! The theorem is on `status`: the status is that of a call with these words of which all promises of `top` hold, and
//! whose source and sinks began with what std says of the three streams, without a fault; it is 1 where the words are
//! of no command, and at most 8. That there is such a call is said, and not that it was made on these streams: a body
//! that answers 1 to words of no command and 8 to all others meets the clauses too, and the structure of `status`, with
//! the tests, shows that it is not so. No clause says that these are the words of the command line and the streams of
//! the process, since std tells nothing of the bytes of a process; nor that `main` ends with the status.
#![tactic(auto)]

ghost use Rattle.std.specs.Prelude.{◌≡◌, ◌≢◌, ◌≤◌, None};
ghost use Rattle.mir_top.specs.Commands.{command_of, word_bytes};
ghost use Rattle.mir_top.specs.Promises.{IsStatusOfCall};

use mir_outside::{StdSink, StdSource, status_without_words, words};
use mir_top::top;
use std::alloc::Global;
use std::io::{Read, Write};
use std::process::ExitCode;

/// Ends with the status of the call with the words of the command line.
fn main(rt: HostRuntime) -> ExitCode {
    match words(&rt) {
        Ok(words) => {
            let (input, output, errors) = (rt.stdin(), rt.stdout(), rt.stderr());
            ExitCode::from(status(rt.alloc(), &words, input, output, errors))
        }
        Err(refused) => ExitCode::from(status_without_words(refused.kind())),
    }
}

/// The status of `top` over these streams: it is that of a call of which all promises of `top` hold, and whose source
/// and sinks began with what is known of the streams. With words of no command it is 1.
fn status<R: Read + Drop, W: Write + Drop, E: Write + Drop>(
    alloc: Global,
    words: &[String],
    input: R,
    output: W,
    errors: E,
) -> u8
    ensures call { IsStatusOfCall (word_bytes words.now)
        (R.remaining input) (W.contents output) (E.contents errors) result }
    ensures usage { command_of (word_bytes words.now) ≡ None → result ≡ 1 }
    ensures most { result ≤ 8 }
{
    let mut source = StdSource::new(input);
    let mut out = StdSink::new(output);
    let mut err = StdSink::new(errors);
    top(alloc, words, &mut source, &mut out, &mut err).status
}
