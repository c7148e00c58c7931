// The least numbers of wanted bits behind the blocks of a graph.
ghost use Rattle.std.specs.Prelude.{◌≡◌, ◌<◌, ◌^◌, true, length, IfOk};
ghost use Rattle.flow_graph.specs.Blocks.{AreBlocksOf};
ghost use Rattle.wanted_bits.specs.Asking.{asked_by};
ghost use Rattle.wanted_bits.specs.Touching.{AreTouched};
ghost use Rattle.wanted_bits.specs.Walking.{back_in};
ghost use Rattle.wanted_bits.specs.WantedFlows.{AreCrossed, AreLeastBehind};

use crate::around::Around;
use crate::flow::WantedFlow;
use crate::lists::WantedList;
use crate::news::SomeVariables;
use crate::picking::Shift;
use fix_solve::{Steps, Work, solve};
use flow_graph::{Blocks, Edges, Graph};
use mir_base::Memory;
use path_laws::{BlockEdges, edges_between};
use std::alloc::{AllocError, Global};
use std::marker::{Brand, PhantomData};
use std::sync::ledger::{Blank, Ledger};

/// The blocks of a graph, and the edges between them, the other way round.
#[derive(Drop)]
pub(crate) struct Crossed {
    pub(crate) blocks: Blocks,
    pub(crate) between: BlockEdges,
}

/// The blocks of a graph and the edges between them.
pub(crate) fn crossings(alloc: Global, graph: &Graph) -> Result<Crossed, Memory>
    ensures { IfOk result (AreCrossed graph.now) }
{
    let edges = Edges::of(alloc, graph)?;
    let blocks = Blocks::of(alloc, graph, &edges)?;
    let between = edges_between(alloc, graph, &edges, &blocks, true)?;
    Ok(Crossed { blocks, between })
}

/// The least numbers of wanted bits behind each block, where each right side shifts back what `backs` has for its node,
/// and `touched` has for each block what it touches.
pub(crate) fn least(
    alloc: Global,
    graph: &Graph,
    around: &Around<'_>,
    crossed: &Crossed,
    backs: &[Option<Shift>],
    touched: &[SomeVariables],
) -> Result<Work<WantedList>, Memory>
    requires crossed { AreCrossed graph.now crossed.now }
    requires backs { length backs.now ≡ length graph.now.nodes }
    requires touched { AreTouched graph.now (back_in backs.now) crossed.now.blocks.lists
        touched.now }
    ensures { IfOk result (AreLeastBehind graph.now
        (asked_by graph.now.shared around.now) crossed.now (back_in backs.now)) }
{
    // So many lists would find no memory.
    if graph.vars().len() >= MOST_VARS {
        return Err(AllocError);
    }
    let work = least_from::<Brand>(alloc, graph, around, crossed, backs, touched, Blank::new(1))?;
    Ok(work)
}

/// The number of variables from which on ranks are not counted in 64 bits.
const MOST_VARS: usize = 1 << 56;

/// The same, with the counter that this blank ledger gives.
fn least_from<L: Ledger>(
    alloc: Global,
    graph: &Graph,
    around: &Around<'_>,
    crossed: &Crossed,
    backs: &[Option<Shift>],
    touched: &[SomeVariables],
    blank: Blank,
) -> Result<Work<WantedList>, Memory>
    requires name { blank.name ≡ L.name }
    requires parts { blank.parts ≡ L.parts }
    requires some { 0 < blank.parts }
    requires crossed { AreCrossed graph.now crossed.now }
    requires backs { length backs.now ≡ length graph.now.nodes }
    requires touched { AreTouched graph.now (back_in backs.now) crossed.now.blocks.lists
        touched.now }
    requires few { length graph.now.vars < 2 ^ 56 }
    ensures { IfOk result (AreLeastBehind graph.now
        (asked_by graph.now.shared around.now) crossed.now (back_in backs.now)) }
{
    let _nodes = graph.nodes();
    let flow = WantedFlow {
        graph,
        blocks: &crossed.blocks,
        between: &crossed.between,
        backs,
        touched,
        around,
        ledger: PhantomData,
    };
    let mut steps = Steps::<L>::new(blank);
    let mut work = Work::new(alloc, &flow)?;
    solve(&mut work, &flow, &mut steps);
    Ok(work)
}
