// The programs of the stages that `optimise` goes through.
ghost use Rattle.std.specs.Prelude.{IfOk};
ghost use Rattle.mir_opt.specs.Stages.{AllKeep, graph_at};

use crate::tests::shown::{put_changes, put_program};
use crate::tests::support::program_of;
use mir_base::Memory;
use mir_opt::{Stage, Trail, optimise, stage_program, stages_of};
use std::alloc::Global;
use std::mem;
use std::test::Fail;

/// A program of which each stage makes another. Code is not reached, a test makes no difference, a constant is known, a
/// product is computed again under another name and then read by both, and a sum is computed again in a loop.
const TEXT: &str = "\
main: begin
receive a(val)
c <- 2
x <- a * c
y <- a * 2
if a goto M
M: if y goto L1
z <- a + 1
print z
goto L2
L1: print y
L2: w <- a + 1
i <- i + w
if i < 9 goto L2
return w
print 8
end
";

/// The stages in turn: the lines of the program at each that the program before it does not have, and how many it has.
/// The program before the first is the text.
const STAGES: &str = "\
$ Lower
if a goto L1
L1: if y goto L3
L3: print y
13 stay
$ Clean
if y goto L2
L1: w <- a + 1
if i < 9 goto L1
L2: print y
goto L1
10 stay
$ Fold
x <- a * 2
14 stay
$ Number
y <- x
14 stay
$ Copies
if x goto L2
L2: print x
13 stay
$ Split
if i < 9 goto L3
L3: goto L1
14 stay
$ Motion
h1 <- a + 1
z <- h1
L1: w <- h1
h1 <- a + 1
14 stay
$ CopiesAfterMotion
print h1
i <- i + h1
return h1
15 stay
$ Round(1)
L1: i <- i + h1
13 stay
$ Round(2)
14 stay
$ Result
if i < 9 goto L1
12 stay
";

/// The program of each stage.
#[test]
fn programs_of_stages(rt: HostRuntime) -> Result<(), Fail> {
    let text = stages_text(rt.alloc())?;
    let shown = show_stages(text.as_str());
    mem::drop(text);
    shown
}

/// Fails where the stages are not those of the text above.
fn show_stages(text: &str) -> Result<(), Fail> {
    if text == STAGES {
        Ok(())
    } else {
        Err(Fail::new(text))
    }
}

/// What each stage changes.
fn stages_text(alloc: Global) -> Result<String, Fail> {
    let mut text = String::new(alloc);
    put_all(alloc, &mut text)?;
    Ok(text)
}

/// Appends it.
fn put_all(alloc: Global, text: &mut String) -> Result<(), Fail> {
    let trail = trail_of(alloc)?;
    let put = put_trail(alloc, text, &trail);
    mem::drop(trail);
    Ok(put?)
}

/// What the passes make of the program.
fn trail_of(alloc: Global) -> Result<Trail, Fail>
    ensures { IfOk result (λ trail. AllKeep graph_at trail.source.units trail.units) }
{
    let program = program_of(alloc, TEXT)?;
    let trail = optimise(alloc, &program);
    mem::drop(program);
    Ok(trail?)
}

/// Appends what each stage of a trail changes.
fn put_trail(alloc: Global, text: &mut String, trail: &Trail) -> Result<(), Memory>
    requires { AllKeep graph_at trail.now.source.units trail.now.units }
{
    let stages = stages_of(alloc, trail)?;
    let put = put_stages(alloc, text, trail, stages.as_slice());
    mem::drop(stages);
    put
}

/// Appends what each of these stages changes.
fn put_stages(
    alloc: Global,
    text: &mut String,
    trail: &Trail,
    stages: &[Stage],
) -> Result<(), Memory>
    requires { AllKeep graph_at trail.now.source.units trail.now.units }
{
    let mut before = None;
    for stage in stages {
        put_stage(alloc, text, trail, before, *stage)?;
        before = Some(*stage);
    }
    Ok(())
}

/// Appends what a stage changes of the program at the one before it, or of the text where there is none.
fn put_stage(
    alloc: Global,
    text: &mut String,
    trail: &Trail,
    before: Option<Stage>,
    stage: Stage,
) -> Result<(), Memory>
    requires { AllKeep graph_at trail.now.source.units trail.now.units }
{
    write!(text, "$ {stage:?}\n")?;
    let before = match before {
        Some(before) => text_at(alloc, trail, before)?,
        None => String::from_str(alloc, TEXT)?,
    };
    let put = put_since(alloc, text, trail, before.as_str(), stage);
    mem::drop(before);
    put
}

/// The same, where the text before it is this.
fn put_since(
    alloc: Global,
    text: &mut String,
    trail: &Trail,
    before: &str,
    stage: Stage,
) -> Result<(), Memory>
    requires { AllKeep graph_at trail.now.source.units trail.now.units }
{
    let after = text_at(alloc, trail, stage)?;
    let put = put_changes(text, before, after.as_str());
    mem::drop(after);
    put
}

/// The text of the program of a stage.
fn text_at(alloc: Global, trail: &Trail, stage: Stage) -> Result<String, Memory>
    requires { AllKeep graph_at trail.now.source.units trail.now.units }
{
    let mut text = String::new(alloc);
    put_text_at(alloc, &mut text, trail, stage)?;
    Ok(text)
}

/// Appends it.
fn put_text_at(alloc: Global, text: &mut String, trail: &Trail, stage: Stage) -> Result<(), Memory>
    requires { AllKeep graph_at trail.now.source.units trail.now.units }
{
    let program = stage_program(alloc, trail, stage)?;
    let put = put_program(alloc, text, &program);
    mem::drop(program);
    put
}
