// A row of bits through a node.
ghost use Rattle.std.specs.Prelude.{◌≡◌, ◌<◌, false, length, replicate, slice_get, IfOk, Some};
ghost use Rattle.bit_rows.specs.Bits.{and_bits, not_bits, row_of};
ghost use Rattle.path_laws.specs.Blockwise.{flow_order};
ghost use Rattle.path_laws.specs.Problem.{IsProblem, bars_in, begun_row, is_seed, row_after};
ghost use Rattle.path_laws.specs.RowLaws.{Joined, Written};

use crate::problems::Problem;
use crate::seeds::is_end;
use bit_rows::{Row, RowView, Rows};
use mir_base::Memory;
use std::alloc::Global;

/// The row that leaves a node to which no bit comes: its seeds.
pub(crate) fn seeds_at(alloc: Global, problem: &Problem<'_>, node: usize) -> Result<Row, Memory>
    requires problem { IsProblem problem.now }
    requires node { node < length problem.now.graph.now.nodes }
    ensures { IfOk result
        (λ row. row ≡ row_after problem.now node (replicate problem.now.bits false)) }
{
    let mut row = Row::of(alloc, &seeds_begin(problem, node))?;
    finish_seeds(problem, &mut row, node);
    Ok(row)
}

/// The row of which the seeds of a node are made: for every path what is stopped there, but where paths end, and else
/// what is born there.
fn seeds_begin<'a>(problem: &Problem<'a>, node: usize) -> RowView<'a>
    requires problem { IsProblem problem.now }
    requires node { node < length problem.now.graph.now.nodes }
    ensures { result ≡ begun_row problem.now node }
{
    if problem.every {
        if is_end(problem.graph, problem.against, node) {
            problem.born.row(node)
        } else {
            problem.stop.row(node)
        }
    } else {
        problem.born.row(node)
    }
}

/// That row becomes the seeds: for every path it is taken without what is born there, or, where paths end, everything
/// is.
fn finish_seeds(problem: &Problem<'_>, row: &mut Row, node: usize)
    requires problem { IsProblem problem.now }
    requires node { node < length problem.now.graph.now.nodes }
    requires begun { row.old ≡ begun_row problem.now node }
    ensures { row.new ≡ row_after problem.now node (replicate problem.now.bits false) }
{
    if problem.every {
        if is_end(problem.graph, problem.against, node) {
            row.flip();
        } else {
            row.minus_from(&problem.born.row(node));
        }
    }
}

/// Takes a row through a node: in goes what comes to the node, and what comes out of it stays. For some path that is
/// what the node does not stop, and what is born there; for every path what comes or is stopped there, or, where paths
/// end, everything, without what is born there.
pub(crate) fn pass_row(problem: &Problem<'_>, row: &mut Row, node: usize)
    requires problem { IsProblem problem.now }
    requires node { node < length problem.now.graph.now.nodes }
    requires long { length row.old ≡ problem.now.bits }
    ensures { row.new ≡ row_after problem.now node row.old }
{
    let born = problem.born.row(node);
    let stop = problem.stop.row(node);
    if !problem.every {
        row.minus_then_or(&stop, &born);
    } else if is_end(problem.graph, problem.against, node) {
        row.copy_from(&born);
        row.flip();
    } else {
        row.or_then_minus(&stop, &born);
    }
}

/// Joins the seeds of a node to a row: for some path what is born there; for every path what is stopped there, or,
/// where paths end, everything, without what is born there.
pub(crate) fn join_seeds(problem: &Problem<'_>, rows: &mut Rows, row: usize, node: usize)
    requires problem { IsProblem problem.now }
    requires node { node < length problem.now.graph.now.nodes }
    requires row { row < length rows.old }
    requires long { length (row_of rows.old row) ≡ problem.now.bits }
    ensures { Joined problem.now.bits rows.old rows.new row (λ b. is_seed problem.now b node) }
{
    let births = problem.born.row(node);
    if !problem.every {
        rows.or_from(row, &births);
    } else if is_end(problem.graph, problem.against, node) {
        or_opposite(rows, row, &births);
    } else {
        rows.or_minus_from(row, &problem.stop.row(node), &births);
    }
}

/// The row becomes its disjunction with the opposite of another.
fn or_opposite(rows: &mut Rows, row: usize, from: &RowView<'_>)
    requires row { row < length rows.old }
    requires equally_long { length (row_of rows.old row) ≡ length from.now }
    ensures { Written rows.old rows.new row
        (not_bits (and_bits (not_bits (row_of rows.old row)) from.now)) }
{
    rows.flip(row);
    rows.and_from(row, from);
    rows.flip(row);
}

/// Which bits do not come through a node.
pub(crate) fn barred_at<'a>(problem: &Problem<'a>, node: usize) -> RowView<'a>
    requires born { node < length problem.now.born.now }
    requires stop { node < length problem.now.stop.now }
    ensures { result ≡ row_of (bars_in problem.now) node }
{
    if problem.every {
        problem.born.row(node)
    } else {
        problem.stop.row(node)
    }
}

/// The node at this place of a block in the order of the flow.
pub(crate) fn node_at(nodes: &[usize], against: bool, place: usize) -> usize
    requires { place < length nodes.now }
    ensures { slice_get (flow_order against nodes.now) place ≡ Some result }
{
    if against {
        nodes[nodes.len() - 1 - place]
    } else {
        nodes[place]
    }
}
