// Which successors of each node are known to be down, as a flow against the edges.
ghost use Rattle.std.specs.Prelude.{◌≡◌, ◌↔◌, ◌<◌, false, length, slice_get};
ghost use Rattle.bit_rows.specs.Bits.{row_of};
ghost use Rattle.div_move.specs.Slots.{or_pairs, pairs};
ghost use Rattle.div_move.specs.SlotFlow.{IsSlotFlow, arriving_at, down_row, slot_net};
ghost use Rattle.div_move.specs.SlotFlowLaws.{slot_flow_laws};
ghost use Rattle.fix_solve.specs.NewsFlows.{untold_laws};

use crate::nodes::{halts, lacks, leads};
use crate::slots::{RowPair, Slots, add_where, row_pair};
use bit_rows::{RowView, Rows};
use fix_solve::{AllNews, Flow, Steps};
use flow_graph::{Edge, Edges, Graph};
use mir_base::Memory;
use std::alloc::Global;
use std::marker::PhantomData;
use std::sync::ledger::Ledger;

/// What is known of a node flows to its predecessors, so the edges are reversed and go in order of their targets.
/// The value of a node says which of its slots are known to lead to a node that is down. Where a node is known to be
/// down, for it uses the expression, or it neither kills it nor halts and all its slots are known, each slot that leads
/// to it becomes known. A slot that a node lacks is known from the first. `uses` and `kills` have a row for each node.
#[derive(Drop)]
pub(crate) struct SlotFlow<'a, L: Ledger> {
    pub(crate) graph: &'a Graph,
    pub(crate) edges: &'a Edges,
    pub(crate) uses: &'a Rows,
    pub(crate) kills: &'a Rows,
    pub(crate) bits: usize,
    pub(crate) ledger: PhantomData<L>,
}

impl<'a, L: Ledger> Flow for SlotFlow<'a, L> {
    type Value = Slots;

    type Ledger = L;

    ghost valid = { IsSlotFlow };

    ghost net = { slot_net };

    fn nodes(&self) -> usize {
        self.graph.len()
    }

    fn edges(&self) -> usize {
        self.edges.len()
    }

    fn edge(&self, number: usize) -> (usize, usize) {
        let edge = self.edges.entering_edge(number);
        (edge.target, edge.source)
    }

    fn out(&self, node: usize) -> (usize, usize) {
        self.edges.entering(node)
    }

    fn first(&self, alloc: Global, node: usize) -> Result<Slots, Memory> {
        let first = lacks(self.graph, node, 0);
        let second = lacks(self.graph, node, 1);
        let known = row_pair(alloc, self.bits, first, second)?;
        Ok(Slots { known })
    }

    fn news(&self, _alloc: Global) -> Result<AllNews, Memory> {
        Ok(AllNews)
    }

    fn room(&self, alloc: Global) -> Result<RowPair, Memory> {
        let room = row_pair(alloc, self.bits, false, false)?;
        Ok(room)
    }

    fn push(
        &self,
        number: usize,
        _target: usize,
        from: &Slots,
        into: &mut Slots,
        room: &mut RowPair,
        steps: &mut Steps<L>,
    ) -> bool {
        steps.tick();
        let edge = self.edges.entering_edge(number);
        self.bring(edge.target, &from.known, room);
        self.join(edge, &mut into.known, &room.first.view())
    }

    fn push_self(
        &self,
        number: usize,
        value: &mut Slots,
        room: &mut RowPair,
        steps: &mut Steps<L>,
    ) -> bool {
        steps.tick();
        let edge = self.edges.entering_edge(number);
        self.bring(edge.target, &value.known, room);
        self.join(edge, &mut value.known, &room.first.view())
    }

    ghost laws = { slot_flow_laws };

    ghost news_laws = { λ f v. untold_laws };
}

impl<'a, L: Ledger> SlotFlow<'a, L> {
    /// Writes into the first row of `room` for which expressions a node is down, where `known` tells which of its slots
    /// lead to nodes that are. The second row is overwritten.
    pub(crate) fn bring(&self, node: usize, known: &RowPair, room: &mut RowPair)
        requires valid { IsSlotFlow self.now }
        requires there { node < length self.now.graph.now.nodes }
        requires first { length known.now.first ≡ self.now.bits }
        requires second { length known.now.second ≡ self.now.bits }
        requires room { length room.old.first ≡ self.now.bits }
        requires other_room { length room.old.second ≡ self.now.bits }
        ensures down { room.new.first
            ≡ down_row self.now node (pairs known.now.first known.now.second) }
        ensures long { length room.new.first ≡ self.now.bits }
        ensures other_long { length room.new.second ≡ self.now.bits }
    {
        room.first.copy_from(&self.uses.row(node));
        if !halts(self.graph.node(node)) {
            room.second.copy_from(&known.second.view());
            room.second.flip();
            let _changed = room.second.or_from(&self.kills.row(node));
            let _changed = room
                .first
                .or_minus_from(&known.first.view(), &room.second.view());
        }
    }

    /// Lets each slot by which an edge leads become known for the expressions of a row, and answers whether any did.
    fn join(&self, edge: Edge, known: &mut RowPair, down: &RowView<'_>) -> bool
        requires valid { IsSlotFlow self.now }
        requires there { edge.source < length self.now.graph.now.nodes }
        requires first { length known.old.first ≡ length down.now }
        requires second { length known.old.second ≡ length down.now }
        ensures joined { pairs known.new.first known.new.second
            ≡ or_pairs (pairs known.old.first known.old.second)
            (arriving_at self.now edge.source edge.target down.now) }
        ensures unchanged { (result ≡ false)
            ↔ (pairs known.new.first known.new.second ≡ pairs known.old.first known.old.second) }
        ensures first_long { length known.new.first ≡ length known.old.first }
        ensures second_long { length known.new.second ≡ length known.old.second }
    {
        let first = leads(self.graph, edge.source, 0, edge.target);
        let second = leads(self.graph, edge.source, 1, edge.target);
        let new_first = add_where(first, &mut known.first, down);
        let new_second = add_where(second, &mut known.second, down);
        new_first | new_second
    }
}
