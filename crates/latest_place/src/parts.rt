// The lazy placement of a table, part by part, without the expressions that stay where they are.
ghost use Rattle.std.specs.Prelude.{◌≡◌, ◌<◌, ◌≤◌, ◌++◌, ℕ, List, length, IfOk, OnOk};
ghost use Rattle.mir_base.specs.Shapes.{AllDiffer};
ghost use Rattle.bit_rows.specs.Bits.{row_of};
ghost use Rattle.flow_graph.specs.Blocks.{AreBlocksOf};
ghost use Rattle.flow_graph.specs.Edges.{IsSplit, edges_of};
ghost use Rattle.path_laws.specs.Paths.{HaveShape};
ghost use Rattle.latest_place.specs.Lazy.{IsLazyPlacement};
ghost use Rattle.latest_place.specs.Parts.{AddsBits, AddsRow, AreToPlace, AreNumbersBelow, IsLazyAmong, IsPart};

use crate::once::moving_numbers;
use crate::placement::placed;
use bit_rows::{RowView, Rows};
use down_safe::DownRule;
use flow_graph::{Blocks, Edges, Graph};
use key_table::KeyTable;
use mir_base::Memory;
use motion_rewrite::{ExprTable, Placement};
use std::alloc::Global;

/// How many expressions are placed at once, so that the sets of rows of a part stay small beside those of the largest
/// tables.
const PART: usize = 4096;

/// The lazy placement of each expression of the table, with the blocks of the graph at hand. Expressions that stay
/// where they are are not asked for, and the others are placed part by part, unless the table is no longer than a part
/// and nearly all of it is to be placed.
pub(crate) fn placed_by_parts<R: DownRule>(
    alloc: Global,
    rule: &R,
    graph: &Graph,
    edges: &Edges,
    blocks: &Blocks,
    table: &ExprTable,
) -> Result<Placement, Memory>
    requires split { IsSplit graph.now.nodes }
    requires edges { edges.now ≡ edges_of graph.now.nodes }
    requires blocks { AreBlocksOf graph.now.nodes blocks.now }
    ensures { IfOk result (IsLazyPlacement (R.is_down rule.now) graph.now table.now) }
{
    let numbers = moving_numbers(alloc, graph, table)?;
    let staying = table.len().saturating_sub(numbers.len());
    if table.len() <= PART && staying <= table.len() / 8 {
        placed(alloc, rule, graph, edges, blocks, table)
    } else {
        joined_parts(alloc, rule, graph, edges, blocks, table, numbers.as_slice())
    }
}

/// The same, put together of the placements of the parts of the expressions of these numbers.
fn joined_parts<R: DownRule>(
    alloc: Global,
    rule: &R,
    graph: &Graph,
    edges: &Edges,
    blocks: &Blocks,
    table: &ExprTable,
    numbers: &[usize],
) -> Result<Placement, Memory>
    requires split { IsSplit graph.now.nodes }
    requires edges { edges.now ≡ edges_of graph.now.nodes }
    requires blocks { AreBlocksOf graph.now.nodes blocks.now }
    requires numbers { AreToPlace graph.now table.now numbers.now }
    ensures { IfOk result (IsLazyPlacement (R.is_down rule.now) graph.now table.now) }
{
    let _nodes = graph.nodes();
    let mut placement = Placement {
        insert: Rows::new(alloc, graph.len(), table.len())?,
        replace: Rows::new(alloc, graph.len(), table.len())?,
    };
    let mut done = 0;
    while done < numbers.len() {
        let end = done.saturating_add(PART).min(numbers.len());
        let part = &numbers[done..end];
        add_part(
            alloc,
            rule,
            graph,
            edges,
            blocks,
            table,
            part,
            &mut placement,
        )?;
        done = end;
    }
    Ok(placement)
}

/// Puts the placement of the expressions of these numbers beside that of others.
fn add_part<R: DownRule>(
    alloc: Global,
    rule: &R,
    graph: &Graph,
    edges: &Edges,
    blocks: &Blocks,
    table: &ExprTable,
    numbers: &[usize],
    placement: &mut Placement,
) -> Result<(), Memory>
    requires split { IsSplit graph.now.nodes }
    requires edges { edges.now ≡ edges_of graph.now.nodes }
    requires blocks { AreBlocksOf graph.now.nodes blocks.now }
    requires below { AreNumbersBelow (length table.now) numbers.now }
    requires differ { AllDiffer numbers.now }
    requires inserts { HaveShape graph.now (length table.now) placement.old.insert }
    requires replaces { HaveShape graph.now (length table.now) placement.old.replace }
    ensures { (others : List ℕ) → AllDiffer (others ++ numbers.now) →
        IsLazyAmong (R.is_down rule.now) graph.now table.now others placement.old →
        OnOk result (IsLazyAmong (R.is_down rule.now) graph.now table.now
        (others ++ numbers.now) placement.new) }
{
    let exprs = part_of(alloc, table, numbers)?;
    let part = placed(alloc, rule, graph, edges, blocks, &exprs)?;
    add_bits(&mut placement.insert, &part.insert, numbers);
    add_bits(&mut placement.replace, &part.replace, numbers);
    Ok(())
}

/// The expressions of these numbers.
fn part_of(alloc: Global, table: &ExprTable, numbers: &[usize]) -> Result<ExprTable, Memory>
    requires below { AreNumbersBelow (length table.now) numbers.now }
    requires differ { AllDiffer numbers.now }
    ensures { IfOk result (IsPart numbers.now table.now) }
{
    let _differ = table.len();
    let mut exprs = Vec::with_capacity(alloc, numbers.len())?;
    for k in 0..numbers.len() {
        exprs.push(*table.get(numbers[k]))?;
    }
    let part = KeyTable::of(alloc, exprs)?;
    Ok(part)
}

/// Sets the bits of a part of the table in the rows of the whole table, where its expressions have these numbers.
fn add_bits(rows: &mut Rows, part: &Rows, numbers: &[usize])
    requires rows { length rows.old ≡ length part.now }
    requires part { (n : ℕ) → n < length part.now →
        length (row_of part.now n) ≡ length numbers.now }
    requires below { (n : ℕ) → n < length part.now →
        AreNumbersBelow (length (row_of rows.old n)) numbers.now }
    requires differ { AllDiffer numbers.now }
    ensures { AddsBits numbers.now part.now rows.old rows.new }
{
    for node in 0..part.len() {
        add_row(rows, node, &part.row(node), numbers);
    }
}

/// The same in the row of one node.
fn add_row(rows: &mut Rows, node: usize, row: &RowView<'_>, numbers: &[usize])
    requires node { node < length rows.old }
    requires row { length row.now ≡ length numbers.now }
    requires below { AreNumbersBelow (length (row_of rows.old node)) numbers.now }
    requires differ { AllDiffer numbers.now }
    ensures { AddsRow numbers.now node row.now rows.old rows.new }
{
    let mut from = 0;
    while from < row.len() {
        match row.next_true(from) {
            Some(bit) => {
                rows.set(node, numbers[bit], true);
                from = bit + 1;
            }
            None => return,
        }
    }
}
