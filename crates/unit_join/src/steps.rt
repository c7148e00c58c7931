// The steps of a unit that gets its leaves, for those who show them.
ghost use Rattle.std.specs.Prelude.{◌<◌, IfOk, length};
ghost use Rattle.unit_join.specs.JoinPrograms.{AreLeavesMade};
ghost use Rattle.unit_join.specs.JoinSteps.{AreLaidSteps, IsJoinMadeAt};

use crate::joins::join;
use crate::leaves::Leaves;
use flow_graph::{Graph, layout};
use mir_base::{Memory, Program};
use program_pass::{Front, PassSteps, lowered_clean, swept_steps};
use std::alloc::Global;

/// The graphs of a unit on its way to its leaves, and how long it becomes.
#[derive(Drop)]
pub struct JoinSteps {
    /// The graphs; the pass joins all leaves that the cleaned graph calls.
    pub steps: PassSteps,
    /// How many instructions the unit has that is laid out of the last graph. Where they are more than a unit of a text
    /// may have, `join_program` leaves the unit with no leaf joined into it.
    pub insts: usize,
}

/// The graphs of the unit of this number on its way to its leaves, which are those of its program, and how long it
/// becomes. It fails only with `Memory`.
pub fn join_steps(
    alloc: Global,
    program: &Program,
    leaves: &Leaves,
    number: usize,
) -> Result<JoinSteps, Memory>
    requires leaves { AreLeavesMade program.now.units leaves.now.units }
    requires number { number < length program.now.units }
    ensures { IfOk result (IsJoinMadeAt leaves.now.units program.now.units number) }
{
    program.fits_together();
    let front = lowered_clean(alloc, program.unit(number))?;
    let joined = join(alloc, &front.cleaned, leaves)?;
    let made = laid_steps(alloc, front, joined)?;
    Ok(made)
}

/// The steps of a unit with these first graphs, whose leaves were joined into it like this.
fn laid_steps(alloc: Global, front: Front, joined: Graph) -> Result<JoinSteps, Memory>
    ensures { IfOk result (AreLaidSteps front joined) }
{
    let steps = swept_steps(alloc, front, joined)?;
    let laid = layout(alloc, &steps.swept)?;
    let insts = laid.insts().len();
    Ok(JoinSteps { steps, insts })
}
