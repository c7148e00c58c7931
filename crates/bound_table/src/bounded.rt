// The tables of the pass `bounds`. Each function fails only with `Memory`.
ghost use Rattle.std.specs.Prelude.{IfOk};
ghost use Rattle.bound_table.specs.Bounded.{MakesBounded, ShowsBounds, TellsBounds};

use crate::states::put_states;
use flow_graph::Graph;
use mir_base::{Memory, Program, Unit as MirUnit};
use program_pass::{PassSteps, lowered_clean, swept_steps};
use std::alloc::Global;
use table_text::{PassTable, text_of_pass};
use value_bounds::use_bounds;

/// The tables of `bounds`: for each unit of a program what is known of its variables before each node, and the graphs
/// on the way to that in which it is used. It fails only with `Memory`.
pub fn text_of_bounds(alloc: Global, program: &Program) -> Result<Vec<u8>, Memory>
    ensures { IfOk result (λ text. ShowsBounds program.now text.items) }
{
    let text = text_of_pass(alloc, program, b"bounds", &BoundsPass)?;
    Ok(text)
}

/// The pass that uses bounds, with the bounds of each variable before each node.
#[derive(Clone, Copy)]
struct BoundsPass;

impl PassTable for BoundsPass {
    ghost exact = { λ table. MakesBounded };

    ghost finds = { λ table. TellsBounds };

    fn steps(&self, alloc: Global, program: &Program, number: usize) -> Result<PassSteps, Memory> {
        program.fits_together();
        let front = lowered_clean(alloc, program.unit(number))?;
        let bounded = use_bounds(alloc, &front.cleaned)?;
        let steps = swept_steps(alloc, front, bounded)?;
        Ok(steps)
    }

    fn put_found(
        &self,
        alloc: Global,
        text: &mut Vec<u8>,
        _units: &[MirUnit],
        _number: usize,
        graph: &Graph,
    ) -> Result<(), Memory> {
        put_states(alloc, text, graph)?;
        Ok(())
    }
}
