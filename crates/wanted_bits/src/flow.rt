// The wanted bits as a flow over blocks, against the edges of a graph: the numbers are kept behind the last node of each
// block, and pass through a block on the way to those before it.
ghost use Rattle.std.specs.Prelude.{◌≡◌, ◌↔◌, ◌<◌, false, length};
ghost use Rattle.wanted_bits.specs.BitsOrder.{HasFew, joined_bits};
ghost use Rattle.wanted_bits.specs.NewsShapes.{StandIn, AreMeant, KeepsRaised};
ghost use Rattle.wanted_bits.specs.Touching.{AreReached, taken_bits, touched_in};
ghost use Rattle.wanted_bits.specs.Walking.{back_in};
ghost use Rattle.wanted_bits.specs.WantedFlows.{IsWantedFlow, caught_in, caught_laws, flow_laws, list_left, passed_back, wanted_net_of};

use crate::around::Around;
use crate::lists::{WantedList, raise_each};
use crate::news::SomeVariables;
use crate::picking::Shift;
use crate::raises::{raise_listed, raise_noting, take_listed};
use crate::walking::walk_back;
use fix_solve::{Flow, NoRoom, Steps};
use flow_graph::{Blocks, Graph};
use mir_base::Memory;
use path_laws::BlockEdges;
use std::alloc::Global;
use std::marker::PhantomData;
use std::sync::ledger::Ledger;

/// Wanted bits flow from block to block against the edges. For each block `touched` has the variables that it touches,
/// and perhaps more.
#[derive(Drop)]
pub(crate) struct WantedFlow<'a, L: Ledger> {
    pub(crate) graph: &'a Graph,
    pub(crate) blocks: &'a Blocks,
    pub(crate) between: &'a BlockEdges,
    pub(crate) backs: &'a [Option<Shift>],
    pub(crate) touched: &'a [SomeVariables],
    pub(crate) around: &'a Around<'a>,
    pub(crate) ledger: PhantomData<L>,
}

impl<'a, L: Ledger> Flow for WantedFlow<'a, L> {
    type Value = WantedList;

    type Ledger = L;

    ghost valid = { IsWantedFlow };

    ghost net = { wanted_net_of };

    ghost caught = { caught_in };

    fn nodes(&self) -> usize {
        self.blocks.len()
    }

    fn edges(&self) -> usize {
        self.between.edges.len()
    }

    fn edge(&self, number: usize) -> (usize, usize) {
        let edge = self.between.edges[number];
        (edge.source, edge.target)
    }

    fn out(&self, node: usize) -> (usize, usize) {
        (self.between.firsts[node], self.between.firsts[node + 1])
    }

    fn first(&self, alloc: Global, _node: usize) -> Result<WantedList, Memory> {
        let list = WantedList::zeros(alloc, self.graph.vars().len())?;
        Ok(list)
    }

    fn news(&self, alloc: Global) -> Result<SomeVariables, Memory> {
        let news = SomeVariables::new(alloc, self.graph.vars().len())?;
        Ok(news)
    }

    fn room(&self, _alloc: Global) -> Result<NoRoom, Memory> {
        Ok(NoRoom)
    }

    fn push(
        &self,
        number: usize,
        _target: usize,
        from: &WantedList,
        into: &mut WantedList,
        _room: &mut NoRoom,
        steps: &mut Steps<L>,
    ) -> bool {
        steps.tick();
        self.pass(number, from.bits.as_slice(), &mut into.room);
        raise_each(into.bits.as_mut_slice(), into.room.as_slice())
    }

    fn push_self(
        &self,
        number: usize,
        value: &mut WantedList,
        _room: &mut NoRoom,
        steps: &mut Steps<L>,
    ) -> bool {
        steps.tick();
        self.pass(number, value.bits.as_slice(), &mut value.room);
        raise_each(value.bits.as_mut_slice(), value.room.as_slice())
    }

    fn push_news(
        &self,
        number: usize,
        _target: usize,
        from: &WantedList,
        news: &SomeVariables,
        into: &mut WantedList,
        into_news: &mut SomeVariables,
        _room: &mut NoRoom,
        steps: &mut Steps<L>,
    ) -> bool {
        steps.tick();
        self.join_news(
            number,
            from.bits.as_slice(),
            news,
            &mut into.room,
            into.bits.as_mut_slice(),
            into_news,
        )
    }

    fn push_self_news(
        &self,
        number: usize,
        value: &mut WantedList,
        news: &mut SomeVariables,
        _room: &mut NoRoom,
        steps: &mut Steps<L>,
    ) -> bool {
        steps.tick();
        self.join_round(number, &mut value.room, value.bits.as_mut_slice(), news)
    }

    ghost laws = { flow_laws };

    ghost news_laws = { caught_laws };
}

impl<'a, L: Ledger> WantedFlow<'a, L> {
    /// Raises numbers to at least those before the block that an edge leaves, where these are behind it; puts the
    /// variables of those that rose among their news, and answers whether there are any. The room takes as many.
    fn join_news(
        &self,
        number: usize,
        behind: &[u8],
        news: &SomeVariables,
        room: &mut Vec<u8>,
        bits: &mut [u8],
        bits_news: &mut SomeVariables,
    ) -> bool
        requires valid { IsWantedFlow self.now }
        requires in_range { number < length self.now.between.now.edges.items }
        requires fits { length room.old.items ≡ length behind.now }
        requires long { length bits.old ≡ length behind.now }
        requires few { HasFew behind.now }
        requires room_few { HasFew room.old.items }
        requires caught { caught_in self.now number news.now behind.now bits.old }
        ensures fits { length room.new.items ≡ length room.old.items }
        ensures room_few { HasFew room.new.items }
        ensures joined { bits.new ≡ joined_bits bits.old (passed_back self.now number behind.now) }
        ensures unchanged { (result ≡ false) ↔ (bits.new ≡ bits.old) }
        ensures keeps { KeepsRaised bits_news.old bits.old bits_news.new bits.new }
    {
        let touched = self.touched_along(number);
        if news.are_all() || touched.are_all() {
            self.pass(number, behind, room);
            raise_noting(bits, room.as_slice(), bits_news)
        } else {
            self.join_listed(
                number,
                behind,
                news.listed(),
                touched.listed(),
                room.as_mut_slice(),
                bits,
                bits_news,
            )
        }
    }

    /// The same where these variables alone were raised behind the block, and it touches none but those.
    fn join_listed(
        &self,
        number: usize,
        behind: &[u8],
        raised: &[usize],
        touched: &[usize],
        room: &mut [u8],
        bits: &mut [u8],
        bits_news: &mut SomeVariables,
    ) -> bool
        requires valid { IsWantedFlow self.now }
        requires in_range { number < length self.now.between.now.edges.items }
        requires fits { length room.old ≡ length behind.now }
        requires long { length bits.old ≡ length behind.now }
        requires few { HasFew behind.now }
        requires room_few { HasFew room.old }
        requires covered { StandIn (touched_in self.now.graph.now (back_in self.now.backs.now)
            (list_left self.now number)) touched.now }
        requires caught { AreReached raised.now touched.now behind.now bits.old }
        ensures fits { length room.new ≡ length room.old }
        ensures room_few { HasFew room.new }
        ensures joined { bits.new ≡ joined_bits bits.old (passed_back self.now number behind.now) }
        ensures unchanged { (result ≡ false) ↔ (bits.new ≡ bits.old) }
        ensures keeps { KeepsRaised bits_news.old bits.old bits_news.new bits.new }
    {
        self.pass_listed(number, behind, raised, touched, room);
        let one = raise_listed(bits, room, raised, bits_news);
        let other = raise_listed(bits, room, touched, bits_news);
        one | other
    }

    /// The same along an edge of a block to itself, where the numbers themselves are behind it.
    fn join_round(
        &self,
        number: usize,
        room: &mut Vec<u8>,
        bits: &mut [u8],
        news: &mut SomeVariables,
    ) -> bool
        requires valid { IsWantedFlow self.now }
        requires in_range { number < length self.now.between.now.edges.items }
        requires fits { length room.old.items ≡ length bits.old }
        requires few { HasFew bits.old }
        requires room_few { HasFew room.old.items }
        ensures fits { length room.new.items ≡ length room.old.items }
        ensures room_few { HasFew room.new.items }
        ensures joined { bits.new ≡ joined_bits bits.old (passed_back self.now number bits.old) }
        ensures unchanged { (result ≡ false) ↔ (bits.new ≡ bits.old) }
        ensures keeps { KeepsRaised news.old bits.old news.new bits.new }
    {
        let touched = self.touched_along(number);
        if touched.are_all() {
            self.pass(number, bits, room);
            raise_noting(bits, room.as_slice(), news)
        } else {
            let touched = touched.listed();
            self.pass_listed(number, bits, &[], touched, room.as_mut_slice());
            raise_listed(bits, room.as_slice(), touched, news)
        }
    }

    /// Some variables, among them those that the block touches that an edge leaves.
    fn touched_along(&self, number: usize) -> &SomeVariables
        requires valid { IsWantedFlow self.now }
        requires in_range { number < length self.now.between.now.edges.items }
        ensures { AreMeant (touched_in self.now.graph.now (back_in self.now.backs.now)
            (list_left self.now number)) result.now }
    {
        let edge = self.between.edges[number];
        &self.touched[edge.source]
    }

    /// Leaves in the room the numbers before the block that an edge leaves, for these variables and those that it
    /// touches, where these numbers are behind it.
    fn pass_listed(
        &self,
        number: usize,
        behind: &[u8],
        raised: &[usize],
        touched: &[usize],
        room: &mut [u8],
    )
        requires valid { IsWantedFlow self.now }
        requires in_range { number < length self.now.between.now.edges.items }
        requires fits { length room.old ≡ length behind.now }
        requires few { HasFew behind.now }
        requires room_few { HasFew room.old }
        ensures long { length room.new ≡ length room.old }
        ensures few { HasFew room.new }
        ensures passed { room.new ≡ passed_back self.now number
            (taken_bits behind.now touched.now (taken_bits behind.now raised.now room.old)) }
    {
        take_listed(room, behind, raised);
        take_listed(room, behind, touched);
        self.walk(number, room);
    }

    /// Leaves in the room the numbers before the block that an edge leaves, where these are behind it.
    fn pass(&self, number: usize, behind: &[u8], room: &mut Vec<u8>)
        requires valid { IsWantedFlow self.now }
        requires in_range { number < length self.now.between.now.edges.items }
        requires fits { length room.old.items ≡ length behind.now }
        requires few { HasFew behind.now }
        ensures long { length room.new.items ≡ length room.old.items }
        ensures few { HasFew room.new.items }
        ensures passed { room.new.items ≡ passed_back self.now number behind.now }
    {
        room.copy_from_slice(behind);
        self.walk(number, room.as_mut_slice());
    }

    /// Leaves the numbers before the block that an edge leaves in the place of those behind it.
    fn walk(&self, number: usize, bits: &mut [u8])
        requires valid { IsWantedFlow self.now }
        requires in_range { number < length self.now.between.now.edges.items }
        requires few { HasFew bits.old }
        ensures long { length bits.new ≡ length bits.old }
        ensures few { HasFew bits.new }
        ensures passed { bits.new ≡ passed_back self.now number bits.old }
    {
        let edge = self.between.edges[number];
        let list = self.blocks.nodes(edge.source);
        walk_back(bits, self.graph, self.around, self.backs, list);
    }
}
