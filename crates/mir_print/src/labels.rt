// The labels of a body: the places that its jumps go to, numbered in ascending order.
ghost use Rattle.std.specs.Prelude.{◌≡◌, ◌+◌, length, IfOk};
ghost use Rattle.std.specs.List.{All};
ghost use Rattle.mir_print.specs.Labels.{AreLabelCounts, JumpsBelow, target_marked, AreMarks};

use crate::Memory;
use mir_base::Inst;
use std::alloc::Global;

/// For each place of a body, for that of `end` and for the one behind it, how many places below it are jumped to.
pub fn counts(alloc: Global, body: &[Inst]) -> Result<Vec<usize>, Memory>
    requires { All (JumpsBelow (length body.now + 1)) body.now }
    ensures { IfOk result (λ counts. AreLabelCounts body.now counts.items) }
{
    let marks = marks(alloc, body)?;
    let mut counts = Vec::new(alloc);
    let mut below = 0;
    counts.push(below)?;
    for mark in &marks {
        below += usize::from(*mark);
        counts.push(below)?;
    }
    Ok(counts)
}

/// For each place of a body, up to that of `end`, whether some instruction jumps to it.
fn marks(alloc: Global, body: &[Inst]) -> Result<Vec<bool>, Memory>
    requires { All (JumpsBelow (length body.now + 1)) body.now }
    ensures { IfOk result (λ marks. AreMarks body.now marks.items) }
{
    let mut marks = vec![in alloc; false; body.len()]?;
    marks.push(false)?;
    for inst in body {
        mark(&mut marks, inst);
    }
    Ok(marks)
}

/// Marks the place that an instruction jumps to, if it jumps.
fn mark(marks: &mut Vec<bool>, inst: &Inst)
    requires { JumpsBelow (length marks.old.items) inst.now }
    ensures { marks.new.items ≡ target_marked marks.old.items inst.now }
{
    match inst {
        Inst::Receive(_) => {}
        Inst::Assign(_, _) => {}
        Inst::Goto(place) => marks[*place] = true,
        Inst::If(_, place) => marks[*place] = true,
        Inst::TrapIf(_, _) => {}
        Inst::Call(_, _, _) => {}
        Inst::Print(_) => {}
        Inst::Return(_) => {}
    }
}
