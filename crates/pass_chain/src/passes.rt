// The passes, and what each makes of a program.
ghost use Rattle.std.specs.Prelude.{IfOk};
ghost use Rattle.program_pass.specs.PassPrograms.{IsOnly, KeepsRuns, Rewrites};
ghost use Rattle.pass_chain.specs.Passes.{IsPassedBy};

use crate::graph_passes::{
    Bounding, Cleaning, Combining, Comparing, Copying, Extending, Folding, Narrowing, Numbering,
    Omitting, Sinking,
};
use crate::over_units::program_through;
use crate::whole::{
    bounded, demanded, divided, joined, looped, moved, optimised, with_called_units,
    with_constant_arguments,
};
use mir_base::{Memory, Program};
use std::alloc::Global;

/// A pass over a program.
#[derive(Clone, Copy, Debug, PartialEq, Eq)]
pub enum Pass {
    /// Self tail calls become loops.
    Tails,
    /// Leaves are joined into their callers, but for units that would then be too long to be read again.
    Join,
    /// A parameter that each call gives the same constant begins with it.
    Arguments,
    /// Each unit goes through all passes of `optimise`.
    Optimise,
    /// Jumps are cleaned.
    Clean,
    /// What is known stands in the place of what is computed.
    Fold,
    /// A variable stands in the place of a right side whose value it has already.
    Number,
    /// The sources of copies stand in their place.
    Copies,
    /// Code is moved, by the lazy placement of the movable expressions.
    Motion,
    /// Divisions are moved.
    Divisions,
    /// Assignments sink to where they are needed, in rounds, and dead ones go.
    Sink,
    /// A test of a variable that holds a comparison is the comparison.
    Comparisons,
    /// Two operators, one on what the other made, become one.
    Terms,
    /// What the bounds of values decide stands in the place of what is computed.
    Bounds,
    /// Extensions of values that fit go.
    Extensions,
    /// Divisions that nothing reads and that cannot trap go.
    Unread,
    /// Operators that change no bit that is wanted go.
    Wanted,
    /// What no unit of the program wants of another goes.
    Demanded,
    /// What the bounds of values decide, where units know what others hand over and back, stands in the place of what
    /// is computed.
    Known,
    /// The units that no call leads to go.
    Called,
}

/// What a pass makes of a program. It is the same, evaluates no more operators, and never has more frames. It fails
/// only with `Memory`.
///
/// `Tails`, `Join`, `Arguments`, `Demanded`, `Known` and `Called` make what `tail_program`, `join_program`,
/// `constant_arguments`, `wanted_program`, `bounded_program` and `called_program` make, and `Optimise`, `Motion` and
/// `Divisions` the targets of `optimise`, `motion` and `divisions`.
/// The others are passes on graphs: each unit is lowered, cleaned, passed, cleaned and laid out. `Clean` does nothing
/// in between, and `Sink` splits the graph and then makes its rounds.
pub fn pass_program(alloc: Global, pass: Pass, program: &Program) -> Result<Program, Memory>
    ensures passed { IfOk result (IsPassedBy pass program.now) }
    ensures only { IfOk result (IsOnly (IsPassedBy pass program.now)) }
    ensures keeps { IfOk result (KeepsRuns program.now) }
{
    let target = passed(alloc, pass, program)?;
    Ok(target)
}

/// The same, said in one.
fn passed(alloc: Global, pass: Pass, program: &Program) -> Result<Program, Memory>
    ensures { IfOk result (Rewrites (IsPassedBy pass) program.now) }
{
    match pass {
        Pass::Tails => looped(alloc, program),
        Pass::Join => joined(alloc, program),
        Pass::Arguments => with_constant_arguments(alloc, program),
        Pass::Optimise => optimised(alloc, program),
        Pass::Clean => program_through::<Cleaning>(alloc, program),
        Pass::Fold => program_through::<Folding>(alloc, program),
        Pass::Number => program_through::<Numbering>(alloc, program),
        Pass::Copies => program_through::<Copying>(alloc, program),
        Pass::Motion => moved(alloc, program),
        Pass::Divisions => divided(alloc, program),
        Pass::Sink => program_through::<Sinking>(alloc, program),
        Pass::Comparisons => program_through::<Comparing>(alloc, program),
        Pass::Terms => program_through::<Combining>(alloc, program),
        Pass::Bounds => program_through::<Bounding>(alloc, program),
        Pass::Extensions => program_through::<Extending>(alloc, program),
        Pass::Unread => program_through::<Omitting>(alloc, program),
        Pass::Wanted => program_through::<Narrowing>(alloc, program),
        Pass::Demanded => demanded(alloc, program),
        Pass::Known => bounded(alloc, program),
        Pass::Called => with_called_units(alloc, program),
    }
}
