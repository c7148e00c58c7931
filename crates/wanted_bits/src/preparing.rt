// What is made of a graph once, whatever is asked for around its unit.
ghost use Rattle.std.specs.Prelude.{IfOk};
ghost use Rattle.wanted_bits.specs.Preparing.{IsPrepared};

use crate::backs::backs;
use crate::news::SomeVariables;
use crate::picking::Shift;
use crate::solving::{Crossed, crossings};
use crate::touching::touched;
use flow_graph::Graph;
use mir_base::Memory;
use std::alloc::Global;

/// What does not change where a graph is solved several times: what each right side shifts back, the blocks with the
/// edges between them, and which variables each block touches.
#[derive(Drop)]
pub struct Prepared {
    pub(crate) backs: Vec<Option<Shift>>,
    pub(crate) crossed: Crossed,
    pub(crate) touched: Vec<SomeVariables>,
}

impl Prepared {
    /// What can be made of a graph before it is known what is asked for around its unit. It fails only with `Memory`.
    pub fn of(alloc: Global, graph: &Graph) -> Result<Prepared, Memory>
        ensures { IfOk result (IsPrepared graph.now) }
    {
        let backs = backs(alloc, graph)?;
        let crossed = crossings(alloc, graph)?;
        let touched = touched(alloc, graph, &crossed.blocks, backs.as_slice())?;
        Ok(Prepared {
            backs,
            crossed,
            touched,
        })
    }
}
