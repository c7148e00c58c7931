// Worked examples, byte for byte, and calls whose memory runs out.
use crate::tests::chain_examples::CHAIN_EXAMPLES;
use crate::tests::devices::{Devices, Left, NO_FAULT, leaves};
use crate::tests::examples::EXAMPLES;
use crate::tests::hostile::{TRIAL, TRIAL_OUTPUT, repeated};
use crate::tests::motion_examples::{MOTION_EXAMPLES, diamonds, moved_diamonds};
use crate::tests::refusals::{OTHER_WORDS, REFUSALS};
use crate::tests::run_examples::RUN_EXAMPLES;
use crate::tests::shared_examples::SHARED_EXAMPLES;
use crate::tests::stage_examples::{STAGE_EXAMPLES, StageExample};
use std::alloc::{AllocError, Global};
use std::mem;
use std::test::Fail;

/// Programs and texts, each with the calls that show what becomes of them.
#[test]
fn worked_examples(rt: HostRuntime) -> Result<(), Fail> {
    for examples in WORKED.iter() {
        assert_eq!(rt; first_wrong(rt.alloc(), examples)?, None);
    }
    Ok(())
}

/// The first example in which a call does not do what it says.
fn first_wrong<'a>(alloc: Global, examples: &'a str) -> Result<Option<&'a str>, AllocError> {
    for example in examples.split("# ").skip(1) {
        if !is_right(alloc, example)? {
            return Ok(Some(example));
        }
    }
    Ok(None)
}

/// The texts of all worked examples.
const WORKED: [&str; 6] = [
    EXAMPLES,
    RUN_EXAMPLES,
    MOTION_EXAMPLES,
    SHARED_EXAMPLES,
    CHAIN_EXAMPLES,
    REFUSALS,
];

/// Whether each call of an example does what the example says.
///
/// An example is a name, a text, and calls with this text: after `$` the words, after `@` the status and then what is
/// written, on the output with the statuses 0, 3 and 4 and else on the error output. `@ same` is status 0 with the text
/// as the output, and after `$ |` the text is what the call before wrote.
fn is_right(alloc: Global, example: &str) -> Result<bool, AllocError> {
    let Some((text, calls)) = text_and_calls(example) else {
        return Ok(false);
    };
    let mut before = text;
    for case in calls.split("$ ") {
        let Some(call) = call_of(case, text, before) else {
            return Ok(false);
        };
        if !leaves(alloc, call.words, call.text, NO_FAULT, call.left())? {
            return Ok(false);
        }
        before = call.written;
    }
    Ok(true)
}

/// The text of an example, and its calls.
fn text_and_calls(example: &str) -> Option<(&[u8], &str)> {
    let (_, example) = example.split_once('\n')?;
    let (text, calls) = example.split_once("$ ")?;
    Some((text.as_bytes(), calls))
}

/// A call of an example: its words and its text, its status, and what is written.
#[derive(Clone, Copy)]
struct Call<'a> {
    words: &'a str,
    text: &'a [u8],
    status: u8,
    written: &'a [u8],
}

/// The call that these lines tell of, in an example of this text, behind a call that wrote this.
fn call_of<'a>(lines: &'a str, text: &'a [u8], before: &'a [u8]) -> Option<Call<'a>> {
    let (words, rest) = lines.split_once("\n@ ")?;
    let (status, written) = rest.split_once('\n')?;
    let (words, text) = match words.strip_prefix("| ") {
        Some(words) => (words, before),
        None => (words, text),
    };
    let (status, written) = if status == "same" {
        (0, text)
    } else {
        (status.parse::<u8>().ok()?, written.as_bytes())
    };
    Some(Call {
        words,
        text,
        status,
        written,
    })
}

impl Call<'_> {
    /// What the call is to leave.
    fn left(&self) -> Left<'_> {
        if matches!(self.status, 0 | 3 | 4) {
            Left::All(self.status, self.written, b"")
        } else {
            Left::Line(self.status, self.written)
        }
    }
}

/// The programs of the stages.
#[test]
fn stages_of_programs(rt: HostRuntime) -> Result<(), Fail> {
    for example in STAGE_EXAMPLES.iter() {
        assert!(rt; has_stages(rt.alloc(), example, NO_FAULT)?, "{}", example.0);
    }
    Ok(())
}

/// Whether the stages of an example are written over these devices.
fn has_stages(alloc: Global, example: &StageExample, on: Devices) -> Result<bool, AllocError> {
    let left = Left::Stages(example.1.as_slice());
    leaves(alloc, "stages", example.0.as_bytes(), on, left)
}

/// Words of no command: status 1, whatever the text.
#[test]
fn other_words(rt: HostRuntime) -> Result<(), Fail> {
    for words in OTHER_WORDS.split('\n') {
        let left = Left::Line(1, USAGE);
        assert!(rt;
            leaves(rt.alloc(), words, b"", NO_FAULT, left)?,
            "with {words}"
        );
    }
    Ok(())
}

/// What is written for words of no command.
const USAGE: &[u8] =
    b"usage: mir optimise | stages | move | ranges | divisions | tails | join | thorough | passes [PASS ..] | run STEPS [N ..] | trial NUMBER UNITS\n";

/// As many instructions as a unit may have; `hostile.rt` has one more.
#[test]
fn limits(rt: HostRuntime) -> Result<(), Fail> {
    assert!(rt; prints_get_a_return(rt.alloc(), 16384)?);
    Ok(())
}

/// Whether a body of so many prints gets a return behind them.
fn prints_get_a_return(alloc: Global, count: usize) -> Result<bool, AllocError> {
    let text = prints(alloc, count, b"end\n")?;
    let gets = makes(
        alloc,
        "optimise",
        &text,
        prints(alloc, count, b"return 0\nend\n"),
    );
    mem::drop(text);
    gets
}

/// A body of so many prints.
fn prints(alloc: Global, count: usize, end: &[u8]) -> Result<Vec<u8>, AllocError> {
    repeated(alloc, b"main: begin\n", b"print 1\n", count, end)
}

/// Whether a call with these words and this text has this output.
fn makes(
    alloc: Global,
    words: &str,
    text: &[u8],
    output: Result<Vec<u8>, AllocError>,
) -> Result<bool, AllocError> {
    let output = output?;
    let makes = makes_this(alloc, words, text, &output);
    mem::drop(output);
    makes
}

/// Whether it has this output.
fn makes_this(alloc: Global, words: &str, text: &[u8], output: &[u8]) -> Result<bool, AllocError> {
    leaves(alloc, words, text, NO_FAULT, Left::Output(output))
}

/// A program with a thousand tests in a row.
#[test]
fn a_thousand_diamonds(rt: HostRuntime) -> Result<(), Fail> {
    assert!(rt; diamonds_are_moved(rt.alloc())?);
    Ok(())
}

/// Whether `move` makes of them what it is to make.
fn diamonds_are_moved(alloc: Global) -> Result<bool, AllocError> {
    let text = diamonds(alloc)?;
    let moved = makes(alloc, "move", &text, moved_diamonds(alloc));
    mem::drop(text);
    moved
}

/// A trial of three units: the target evaluates no more than the source. That of the most units is on the page of the
/// language, whose commands are run with the program.
#[test]
fn trials(rt: HostRuntime) -> Result<(), Fail> {
    assert!(rt; leaves(rt.alloc(), "trial 7 3", b"", NO_FAULT, Left::Trial)?);
    Ok(())
}

/// For runs in which the allocations are refused in turn: a refusal before the call ends the test.
#[test]
fn memory_that_is_refused(rt: HostRuntime) {
    for (words, text, output) in REFUSED_MEMORY.iter() {
        assert!(rt; has_output_or_refuses(rt.alloc(), words, text, output));
    }
    for example in STAGE_EXAMPLES.iter() {
        assert!(rt; has_stages(rt.alloc(), example, may_refuse()).unwrap_or(true));
    }
}

/// Whether a call has this output or tells that memory ran out, where it comes to the call.
fn has_output_or_refuses(alloc: Global, words: &str, text: &[u8], output: &[u8]) -> bool {
    leaves(alloc, words, text, may_refuse(), Left::Output(output)).unwrap_or(true)
}

/// Devices in which no fault occurs, while memory may be refused.
fn may_refuse() -> Devices {
    Devices {
        may_refuse: true,
        ..NO_FAULT
    }
}

/// The words, a text and the output of calls whose memory is refused.
const REFUSED_MEMORY: [(&str, &[u8], &[u8]); 10] = [
    ("optimise", SKIPS, CLEANED),
    ("move", SKIPS, CLEANED),
    ("run 9 0", SKIPS, b"1\nresult 0\nevals 0\n"),
    (TRIAL, SKIPS, TRIAL_OUTPUT),
    ("ranges", EXPRESSIONS, HELD),
    ("divisions", EXPRESSIONS, DIVIDED),
    ("tails", CALLS, TAILS),
    ("join", CALLS, JOINED),
    ("thorough", CALLS, BOUNDED),
    ("passes tails join optimise called", CALLS, TURNED),
];

/// A test that leads to a goto.
const SKIPS: &[u8] =
    b"main: begin\nreceive a(val)\nif a goto L\nx <- 1\nL: goto M\nM: print x\nend\n";

/// The same with neither.
const CLEANED: &[u8] =
    b"main: begin\nreceive a(val)\nif a goto L1\nx <- 1\nL1: print x\nreturn 0\nend\n";

/// A division and a sum, each of which is evaluated twice.
const EXPRESSIONS: &[u8] = b"\
main: begin
receive a(val)
receive b(val)
x <- a / b
y <- a / b
z <- x + y
y <- x + y
return z
end
";

/// Where the temporary of the sum is held.
const HELD: &[u8] = b"unit main\nh1 <- x + y inserted 1 replaced 2 held 1\n";

/// The same with one division.
const DIVIDED: &[u8] = b"\
main: begin
receive a(val)
receive b(val)
h1 <- a / b
x <- h1
y <- h1
z <- x + y
y <- x + y
return z
end
";

/// A self tail call, and a call of a leaf.
const CALLS: &[u8] = b"\
main: begin
receive n(val)
if n = 0 goto L1
m <- f,(n,int)
x <- main,(m,int)
return x
L1: return n
end
f: begin
receive n(val)
x <- n - 1
return x
end
";

/// The same with a loop in place of the one.
const TAILS: &[u8] = b"\
main: begin
receive n(val)
L1: if n = 0 goto L2
m <- f,(n,int)
h1 <- m
n <- h1
m <- 0
x <- 0
goto L1
L2: return n
end
f: begin
receive n(val)
x <- n - 1
return x
end
";

/// And with the leaf in place of the other.
const JOINED: &[u8] = b"\
main: begin
receive n(val)
if n = 0 goto L1
h1 <- n
h2 <- 0
h2 <- h1 - 1
m <- h2
x <- main,(m,int)
return x
L1: return n
end
f: begin
receive n(val)
x <- n - 1
return x
end
";

/// And with both, and then all other passes.
const TURNED: &[u8] = b"\
main: begin
receive n(val)
L1: if n = 0 goto L2
h3 <- n - 1
n <- h3
goto L1
L2: return n
end
";

/// And where it is known that what is returned is 0.
const BOUNDED: &[u8] = b"\
main: begin
receive n(val)
L1: if n = 0 goto L2
h3 <- n - 1
n <- h3
goto L1
L2: return 0
end
";
