// Passes one after another.
ghost use Rattle.std.specs.Prelude.{IfOk};
ghost use Rattle.program_pass.specs.PassPrograms.{IsOnly, KeepsRuns, Rewrites};
ghost use Rattle.pass_chain.specs.Passes.{IsChained};

use crate::{Pass, pass_program};
use mir_base::{Memory, Program};
use std::alloc::Global;
use std::mem;

/// What the passes make of a program one after another, from the first to the last: each pass takes what the one before
/// made. With no pass the program stays as it is. The last program is the same, evaluates no more operators, and never
/// has more frames. It fails only with `Memory`.
pub fn chain_program(alloc: Global, passes: &[Pass], program: &Program) -> Result<Program, Memory>
    ensures chained { IfOk result (IsChained passes.now program.now) }
    ensures only { IfOk result (IsOnly (IsChained passes.now program.now)) }
    ensures keeps { IfOk result (KeepsRuns program.now) }
{
    let target = chained(alloc, passes, program)?;
    Ok(target)
}

/// The same, said in one.
fn chained(alloc: Global, passes: &[Pass], program: &Program) -> Result<Program, Memory>
    ensures { IfOk result (Rewrites (IsChained passes.now) program.now) }
{
    let mut last = program.clone()?;
    for pass in passes {
        let next = pass_program(alloc, *pass, &last)?;
        mem::drop(mem::replace(&mut last, next));
    }
    Ok(last)
}
