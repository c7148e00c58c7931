// Which units calls lead to, found by a walk from the first.
ghost use Rattle.std.specs.Prelude.{◌≡◌, ◌<◌, ◌≤◌, ◌++◌, [], false, true, length, replicate, slice_set, IfNone, IfOk, OnOk, Some, None};
ghost use Rattle.std.specs.Option.{option_to_list};
ghost use Rattle.flow_graph.specs.ReachWalks.{stack_after, walk_weight};
ghost use Rattle.called_units.specs.CalledUnits.{IsCalled, MarkCalled};
ghost use Rattle.called_units.specs.CallWalks.{FollowsCalls};

use mir_base::{Inst, Memory, Program};
use std::alloc::Global;

/// For each unit whether calls lead to it from the first. It fails only with `Memory`.
pub(crate) fn called(alloc: Global, program: &Program) -> Result<Vec<bool>, Memory>
    ensures { IfOk result (λ marks. MarkCalled program.now marks.items) }
{
    program.fits_together();
    let mut marks = no_marks(alloc, program.units.items().len())?;
    marks[0] = true;
    let mut stack = Vec::new(alloc);
    stack.push(0)?;
    while let Some(unit) = pop_unit(&mut stack) {
        mark_calls(program, unit, &mut marks, &mut stack)?;
    }
    Ok(marks)
}

/// The last of the stack, where there is one.
fn pop_unit(stack: &mut Vec<usize>) -> Option<usize>
    ensures same { stack.old.items ≡ stack.new.items ++ option_to_list result }
    ensures empty { IfNone result (stack.old.items ≡ []) }
{
    stack.pop()
}

/// So many marks, none of them set.
fn no_marks(alloc: Global, count: usize) -> Result<Vec<bool>, Memory>
    ensures { IfOk result (λ marks. marks.items ≡ replicate count false) }
{
    Ok(vec![in alloc; false; count]?)
}

/// Marks each unit that this one calls, and puts those on the stack that were not marked before.
fn mark_calls(
    program: &Program,
    unit: usize,
    marks: &mut Vec<bool>,
    stack: &mut Vec<usize>,
) -> Result<(), Memory>
    requires there { unit < length program.now.units }
    requires called { IsCalled program.now unit }
    requires walking { FollowsCalls program.now marks.old.items stack.old.items (Some unit) }
    ensures walking { OnOk result (FollowsCalls program.now marks.new.items stack.new.items None) }
    ensures lighter { OnOk result (walk_weight marks.new.items stack.new.items
        ≤ walk_weight marks.old.items stack.old.items) }
{
    let body = program.unit(unit).insts();
    for inst in body {
        match inst {
            Inst::Call(_, called, _) => mark(marks, stack, *called)?,
            Inst::Receive(_) => {}
            Inst::Assign(_, _) => {}
            Inst::Goto(_) => {}
            Inst::If(_, _) => {}
            Inst::TrapIf(_, _) => {}
            Inst::Print(_) => {}
            Inst::Return(_) => {}
        }
    }
    Ok(())
}

/// Marks a unit, and puts it on the stack where it was not marked before.
fn mark(marks: &mut Vec<bool>, stack: &mut Vec<usize>, unit: usize) -> Result<(), Memory>
    requires { unit < length marks.old.items }
    ensures marks { OnOk result (marks.new.items ≡ slice_set marks.old.items unit true) }
    ensures stack { OnOk result
        (stack.new.items ≡ stack_after marks.old.items stack.old.items (Some unit)) }
{
    if !marks[unit] {
        marks[unit] = true;
        stack.push(unit)?;
    }
    Ok(())
}
