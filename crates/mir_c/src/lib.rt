//! `mir` for C: two calls over memory alone, with words and a text, for what `mir` does and for tables. `c/mir.h`
//! says what C gives and holds, and each clause here speaks of a caller that does.
//!
//! The theorem is on the two exports: what they return and leave in the caller's memory is what `mir_call::call_top`
//! and `mir_call::call_tables` promise.
#![tactic(auto)]

ghost use Rattle.std.specs.Prelude.{◌≡◌, ◌≢◌};
ghost use Rattle.mir_call.specs.Answers.{HasAnswered, IsAnswer, IsTableAnswer};

use mir_call::{CallAnswer, call_tables, call_top};
use std::alloc::Global;

/// Does what the words ask with this text. It returns the status, and puts the output and the line of complaint into
/// the rooms, as much of each as fits, and their full lengths behind `out_length` and `line_length`.
#[unsafe(no_mangle)]
pub extern "C" fn mir_call(
    alloc: Global,
    words: &[u8],
    text: &[u8],
    out: &mut [u8],
    out_length: &mut usize,
    line: &mut [u8],
    line_length: &mut usize,
) -> u8
    ensures answers { HasAnswered (IsAnswer words.now text.now)
        out.old out.new line.old line.new (record {
          status = result;
          output = out_length.new;
          complaint = line_length.new;
        }) }
    ensures no_read_fault { result ≢ 6 }
{
    let answer = call_top(alloc, words, text, out, line);
    told(answer, out_length, line_length)
}

/// Makes the tables that the words ask for of the program of this text. It returns the status, and puts the output and
/// the line of complaint into the rooms, as much of each as fits, and their full lengths behind `out_length` and
/// `line_length`.
#[unsafe(no_mangle)]
pub extern "C" fn mir_tables_call(
    alloc: Global,
    words: &[u8],
    text: &[u8],
    out: &mut [u8],
    out_length: &mut usize,
    line: &mut [u8],
    line_length: &mut usize,
) -> u8
    ensures answers { HasAnswered (IsTableAnswer words.now text.now)
        out.old out.new line.old line.new (record {
          status = result;
          output = out_length.new;
          complaint = line_length.new;
        }) }
    ensures no_read_fault { result ≢ 6 }
{
    let answer = call_tables(alloc, words, text, out, line);
    told(answer, out_length, line_length)
}

/// The status of an answer, whose lengths it puts in their places.
fn told(answer: CallAnswer, out_length: &mut usize, line_length: &mut usize) -> u8
    ensures status { result ≡ answer.status }
    ensures output { out_length.new ≡ answer.output }
    ensures complaint { line_length.new ≡ answer.complaint }
{
    *out_length = answer.output;
    *line_length = answer.complaint;
    answer.status
}
