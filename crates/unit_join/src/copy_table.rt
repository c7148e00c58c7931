// The leaves that a graph calls, and the copies of their variables.
ghost use Rattle.std.specs.Prelude.{◌≡◌, ◌<◌, ◌+◌, ◌++◌, ◌∷◌, [], List, Option, ℕ, IfOk, IfSome, OnOk, length, replicate, slice_set, None, Some};
ghost use Rattle.flow_graph.specs.Graphs.{GraphShape};
ghost use Rattle.unit_join.specs.CopyTables.{HasCopyNumbers, TakesInLeaves};
ghost use Rattle.unit_join.specs.JoinPrograms.{some_unit};
ghost use Rattle.unit_join.specs.Joins.{called_leaves, first_copy, leaf_at, leaf_vars};

use crate::calls::{leaf_at, leaf_called};
use crate::copying::plus;
use crate::leaves::Leaves;
use flow_graph::Node;
use mir_base::Memory;
use std::alloc::Global;

/// The leaves that a graph calls, with the numbers that the copies of their variables get in it. These come after the
/// numbers of its own variables: for each leaf a run of numbers, one for each variable that is no global.
#[derive(Drop)]
pub(crate) struct CopyTable {
    /// The numbers of the leaf units, in the order of the first node that calls each.
    pub(crate) units: Vec<usize>,
    /// For each unit of the program the number of its first copy, and `None` where it is none of these leaves.
    firsts: Vec<Option<usize>>,
    /// The number after the last copy: how many variables the graph has with all copies.
    pub(crate) end: usize,
}

impl CopyTable {
    /// The table for the nodes of a graph with `vars` variables.
    pub(crate) fn of(
        alloc: Global,
        nodes: &[Node],
        vars: usize,
        leaves: &Leaves,
    ) -> Result<CopyTable, Memory>
        ensures units { IfOk result (λ table.
            table.units.items ≡ called_leaves leaves.now.units nodes.now) }
        ensures copies { IfOk result (HasCopyNumbers leaves.now.units vars) }
    {
        let mut table = CopyTable {
            units: Vec::new(alloc),
            firsts: none_of(alloc, leaves.units.items().len())?,
            end: vars,
        };
        for node in nodes {
            table.add(leaves, leaf_called(leaves, node))?;
        }
        Ok(table)
    }

    /// Adds this leaf unit, where there is one and the table does not have it yet.
    fn add(&mut self, leaves: &Leaves, unit: Option<usize>) -> Result<(), Memory>
        requires long { length self.old.firsts.items ≡ length leaves.now.units }
        requires within { IfSome unit (λ unit. unit < length leaves.now.units) }
        ensures { OnOk result (TakesInLeaves leaves.now.units (some_unit unit) self.old self.new) }
    {
        match unit {
            None => Ok(()),
            Some(unit) => match self.firsts[unit] {
                Some(_) => Ok(()),
                None => {
                    self.push(leaves, unit)?;
                    Ok(())
                }
            },
        }
    }

    /// Adds a leaf unit that the table does not have, with the next numbers for its copies.
    fn push(&mut self, leaves: &Leaves, unit: usize) -> Result<(), Memory>
        requires { unit < length self.old.firsts.items }
        ensures units { OnOk result (self.new.units.items ≡ self.old.units.items ++ unit ∷ []) }
        ensures firsts { OnOk result (self.new.firsts.items ≡
            slice_set self.old.firsts.items unit (Some self.old.end)) }
        ensures end { OnOk result (self.new.end ≡
            self.old.end + leaf_vars (leaf_at leaves.now.units unit)) }
    {
        let end = plus(self.end, leaf_vars(leaves, unit))?;
        self.units.push(unit)?;
        self.firsts[unit] = Some(self.end);
        self.end = end;
        Ok(())
    }

    /// The number of the first copy of a leaf unit.
    pub(crate) fn first_copy(&self, unit: usize) -> usize
        requires { unit < length self.now.firsts.items }
        ensures { (leaves : List (Option GraphShape)) (vars : ℕ)
            → HasCopyNumbers leaves vars self.now
            → result ≡ first_copy leaves self.now.units.items vars unit }
    {
        match self.firsts[unit] {
            Some(first) => first,
            None => self.end,
        }
    }
}

/// So many times `None`.
fn none_of(alloc: Global, count: usize) -> Result<Vec<Option<usize>>, Memory>
    ensures { IfOk result (λ entries. entries.items ≡ replicate count None) }
{
    Ok(vec![in alloc; None; count]?)
}

/// How many variables of this unit are no globals, where it is a leaf, and 0 where it is none.
fn leaf_vars(leaves: &Leaves, unit: usize) -> usize
    ensures { result ≡ leaf_vars (leaf_at leaves.now.units unit) }
{
    match leaf_at(leaves, unit) {
        Some(leaf) => leaf.vars().len().saturating_sub(leaf.shared()),
        None => 0,
    }
}
