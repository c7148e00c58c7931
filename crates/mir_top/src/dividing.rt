// Code motion alone and the motion of divisions alone, with all that is promised of them.
ghost use Rattle.std.specs.Prelude.{◌≡◌, IfOk};
ghost use Rattle.mir_top.specs.Outputs.{Divides, MovesCode};

use crate::ranges::{divisions_hold_least, moves_hold_least};
use mir_base::{Memory, Program};
use mir_opt::MoveTrail;
use std::alloc::Global;

/// What the motion of divisions alone makes of the program: the one linked trail, whose target does what the program
/// does, and in which the divisions of each unit move in the best way and are held least. It fails only with `Memory`.
pub fn best_divisions(alloc: Global, program: &Program) -> Result<MoveTrail, Memory>
    ensures source { IfOk result (λ trail. trail.source ≡ program.now) }
    ensures divides { IfOk result Divides }
{
    let trail = mir_opt::divisions(alloc, program)?;
    divisions_hold_least(&trail);
    Ok(trail)
}

/// What code motion alone makes of the program: the one linked trail, whose target does what the program does, and in
/// which the code of each unit is moved in the best way, with its temporaries held least. It fails only with `Memory`.
pub(crate) fn best_motion(alloc: Global, program: &Program) -> Result<MoveTrail, Memory>
    ensures source { IfOk result (λ trail. trail.source ≡ program.now) }
    ensures moves { IfOk result MovesCode }
{
    let trail = mir_opt::motion(alloc, program)?;
    moves_hold_least(&trail);
    Ok(trail)
}
