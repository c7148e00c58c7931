// What a block does to the bits that come to it.
ghost use Rattle.std.specs.Prelude.{◌≡◌, ◌+◌, ◌<◌, length, IfOk, OnOk};
ghost use Rattle.bit_rows.specs.Bits.{row_of};
ghost use Rattle.path_laws.specs.Problem.{HaveBarred, IsProblem, block_seeds};

use crate::passing::{barred_at, node_at, pass_row, seeds_at};
use crate::problems::Problem;
use bit_rows::{Row, Rows};
use mir_base::Memory;
use std::alloc::Global;

/// What comes out of a block where nothing comes to it: the seeds of its first node, taken through the others.
pub(crate) fn seed_of(alloc: Global, problem: &Problem<'_>, block: usize) -> Result<Row, Memory>
    requires problem { IsProblem problem.now }
    requires block { block < length problem.now.blocks.now.lists }
    ensures { IfOk result (λ row. row ≡ row_of (block_seeds problem.now) block) }
{
    let nodes = problem.blocks.nodes(block);
    let first = node_at(nodes, problem.against, 0);
    let mut row = seeds_at(alloc, problem, first)?;
    for place in 1..nodes.len() {
        let node = node_at(nodes, problem.against, place);
        pass_row(problem, &mut row, node);
    }
    Ok(row)
}

/// Which bits do not come through each block.
pub(crate) fn barred_by_blocks(alloc: Global, problem: &Problem<'_>) -> Result<Rows, Memory>
    requires { IsProblem problem.now }
    ensures { IfOk result (HaveBarred problem.now (length problem.now.blocks.now.lists)) }
{
    let count = problem.blocks.len();
    let mut stops = Rows::with_room(alloc, count, problem.bits)?;
    for block in 0..count {
        push_barred_by(problem, block, &mut stops)?;
    }
    Ok(stops)
}

/// Puts the row of a block at the end: the bits that some node of the block bars.
fn push_barred_by(problem: &Problem<'_>, block: usize, stops: &mut Rows) -> Result<(), Memory>
    requires problem { IsProblem problem.now }
    requires block { block < length problem.now.blocks.now.lists }
    requires stops { HaveBarred problem.now block stops.old }
    ensures { OnOk result (HaveBarred problem.now (block + 1) stops.new) }
{
    let nodes = problem.blocks.nodes(block);
    let first = node_at(nodes, problem.against, 0);
    stops.push(&barred_at(problem, first))?;
    for place in 1..nodes.len() {
        let node = node_at(nodes, problem.against, place);
        stops.or_from(block, &barred_at(problem, node));
    }
    Ok(())
}
