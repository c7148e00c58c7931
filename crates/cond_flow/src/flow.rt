// The states as a flow over blocks: they are kept only where blocks begin, and pass through a block on the way along an
// edge of its last node.
ghost use Rattle.std.specs.Prelude.{◌≡◌, ◌↔◌, ◌<◌, ◌-◌, ◌/◌, if◌then◌else◌, false, true, length, take};
ghost use Rattle.flow_graph.specs.Blocks.{IsChain};
ghost use Rattle.fix_solve.specs.Net.{Joins};
ghost use Rattle.fix_solve.specs.Order.{IsLeastUpper};
ghost use Rattle.cond_flow.specs.Blockwise.{block_at, last_of, out_of, through_nodes};
ghost use Rattle.cond_flow.specs.Flows.{IsStateFlow, net_of};
ghost use Rattle.cond_flow.specs.FlowLaws.{flow_laws};
ghost use Rattle.cond_flow.specs.Outsides.{along_in};
ghost use Rattle.cond_flow.specs.Catching.{HasPassed, IsCaught};
ghost use Rattle.cond_flow.specs.Caught.{caught_in, caught_laws};
ghost use Rattle.cond_flow.specs.NewsShapes.{IsAllNew};
ghost use Rattle.cond_flow.specs.Raising.{KeepsRaised};
ghost use Rattle.cond_flow.specs.Reading.{AreApart};
ghost use Rattle.cond_flow.specs.States.{BelowState, Knows, is_reached, joined_each, size_of, state_where};

use crate::news::{MOST_SMALL, StateNews};
use crate::reading::{all_go_on, are_apart, take_read};
use crate::states::BlockState;
use crate::transfer::{may_pass, step, steps_on};
use crate::{Facts, Knowledge, Outside};
use fix_solve::{Flow, News, Steps};
use flow_graph::{Blocks, Graph};
use mir_base::Memory;
use std::alloc::Global;
use std::marker::PhantomData;
use std::sync::ledger::Ledger;

/// States flow from block to block. Block b has two edges, numbered 2b and 2b + 1: those at the slots 0 and 1 of its
/// last node. `targets` has the block to which each leads; where there is no such slot, nothing passes, and it may be
/// any. `entry` is the block in which Start stands, `zeros` has what is known before Start, and `outside` what is known
/// outside.
#[derive(Drop)]
pub(crate) struct StateFlow<'a, K: Knowledge, L: Ledger> {
    pub(crate) graph: &'a Graph,
    pub(crate) blocks: &'a Blocks,
    pub(crate) entry: usize,
    pub(crate) targets: &'a [usize],
    pub(crate) zeros: &'a Facts<K>,
    pub(crate) outside: &'a Outside<'a, K>,
    pub(crate) ledger: PhantomData<L>,
}

impl<'a, K: Knowledge, L: Ledger> Flow for StateFlow<'a, K, L> {
    type Value = BlockState<K>;

    type Ledger = L;

    ghost valid = { IsStateFlow K.rules };

    ghost net = { net_of K.rules };

    ghost caught = { caught_in K.below K.rules };

    fn nodes(&self) -> usize {
        self.blocks.len()
    }

    fn edges(&self) -> usize {
        self.targets.len()
    }

    fn edge(&self, number: usize) -> (usize, usize) {
        (number / 2, self.targets[number])
    }

    fn out(&self, node: usize) -> (usize, usize) {
        let _edges = self.targets.len();
        (2 * node, 2 * node + 2)
    }

    fn first(&self, alloc: Global, node: usize) -> Result<BlockState<K>, Memory> {
        let state = BlockState::of(alloc, node == self.entry, self.zeros)?;
        Ok(state)
    }

    fn news(&self, alloc: Global) -> Result<StateNews, Memory> {
        let news = StateNews::new(alloc, self.zeros.len())?;
        Ok(news)
    }

    fn room(&self, alloc: Global) -> Result<Facts<K>, Memory> {
        let room = self.zeros.copied(alloc)?;
        Ok(room)
    }

    fn push(
        &self,
        number: usize,
        _target: usize,
        from: &BlockState<K>,
        into: &mut BlockState<K>,
        room: &mut Facts<K>,
        steps: &mut Steps<L>,
    ) -> bool {
        steps.tick();
        if from.reached {
            self.push_known(number, &from.known, into, room)
        } else {
            false
        }
    }

    fn push_self(
        &self,
        number: usize,
        value: &mut BlockState<K>,
        room: &mut Facts<K>,
        steps: &mut Steps<L>,
    ) -> bool {
        steps.tick();
        if value.reached {
            let passes = self.pass(number, &value.known, room);
            join_where(passes, &mut value.known, room)
        } else {
            false
        }
    }

    fn push_news(
        &self,
        number: usize,
        target: usize,
        from: &BlockState<K>,
        news: &StateNews,
        into: &mut BlockState<K>,
        into_news: &mut StateNews,
        room: &mut Facts<K>,
        steps: &mut Steps<L>,
    ) -> bool {
        if self.is_whole(from.reached, into.reached) {
            let changed = self.push(number, target, from, into, room, steps);
            renew_if(changed, into_news);
            changed
        } else {
            steps.tick();
            self.join_news(number, &from.known, news, room, &mut into.known, into_news)
        }
    }

    fn push_self_news(
        &self,
        number: usize,
        value: &mut BlockState<K>,
        news: &mut StateNews,
        room: &mut Facts<K>,
        steps: &mut Steps<L>,
    ) -> bool {
        if self.is_whole(value.reached, value.reached) {
            let changed = self.push_self(number, value, room, steps);
            renew_if(changed, news);
            changed
        } else {
            steps.tick();
            self.join_round(number, &mut value.known, room, news)
        }
    }

    ghost laws = { flow_laws K.laws.order K.laws.rising };

    ghost news_laws = { caught_laws K.laws.order };
}

impl<'a, K: Knowledge, L: Ledger> StateFlow<'a, K, L> {
    /// Joins what passes along an edge of a block that is reached, before which this is known, and answers whether the
    /// state has changed. There is room for what passes; where a block is reached first, it goes into its own list.
    fn push_known(
        &self,
        number: usize,
        known: &Facts<K>,
        into: &mut BlockState<K>,
        room: &mut Facts<K>,
    ) -> bool
        requires valid { IsStateFlow K.rules self.now }
        requires in_range { number < length self.now.targets.now }
        requires long { length known.now ≡ size_of into.old }
        requires fits { length room.old ≡ length known.now }
        ensures room { length room.new ≡ length room.old }
        ensures joined { IsLeastUpper (BelowState K.below) into.old
            ((net_of K.rules self.now).transfer number (state_where true known.now)) into.new }
        ensures unchanged { (result ≡ false) ↔ (into.new ≡ into.old) }
    {
        if into.reached {
            let passes = self.pass(number, known, room);
            join_where(passes, &mut into.known, room)
        } else {
            let passes = self.pass(number, known, &mut into.known);
            into.reached = passes;
            passes
        }
    }

    /// Whether a push from a block to another takes the whole state, where it is known which of them are reached.
    fn is_whole(&self, from: bool, into: bool) -> bool
        ensures from { result ≡ false → from ≡ true }
        ensures into { result ≡ false → into ≡ true }
    {
        self.zeros.len() <= MOST_SMALL || !from || !into
    }

    /// Joins what passes along an edge of a block that is reached, before which this is known, to what is known before one
    /// that is reached, with room for as much; puts the variables that are raised there among the news, and answers whether
    /// there are any.
    fn join_news(
        &self,
        number: usize,
        known: &Facts<K>,
        news: &StateNews,
        room: &mut Facts<K>,
        into: &mut Facts<K>,
        into_news: &mut StateNews,
    ) -> bool
        requires valid { IsStateFlow K.rules self.now }
        requires in_range { number < length self.now.targets.now }
        requires fits { length known.now ≡ length room.old }
        requires long { length known.now ≡ length into.old }
        requires caught { IsCaught K.below K.rules ((net_of K.rules self.now).transfer number)
            news.now (Knows known.now) (Knows into.old) }
        ensures room { length room.new ≡ length room.old }
        ensures joined { Joins (BelowState K.below) (net_of K.rules self.now) number
            (Knows known.now) (Knows into.old) (Knows into.new) }
        ensures unchanged { (result ≡ false) ↔ (into.new ≡ into.old) }
        ensures keeps { KeepsRaised K.rules into_news.old into.old into_news.new into.new }
    {
        if self.is_past(number, news) {
            self.join_past(number, known, news.raised(), room, into, into_news)
        } else {
            self.join_whole(number, known, room, into, into_news)
        }
    }

    /// The same along an edge of a block to itself: what the block does not touch is there already.
    fn join_round(
        &self,
        number: usize,
        known: &mut Facts<K>,
        room: &mut Facts<K>,
        news: &mut StateNews,
    ) -> bool
        requires valid { IsStateFlow K.rules self.now }
        requires in_range { number < length self.now.targets.now }
        requires fits { length known.old ≡ length room.old }
        requires caught { IsCaught K.below K.rules ((net_of K.rules self.now).transfer number)
            news.old (Knows known.old) (Knows known.old) }
        ensures room { length room.new ≡ length room.old }
        ensures joined { Joins (BelowState K.below) (net_of K.rules self.now) number
            (Knows known.old) (Knows known.old) (Knows known.new) }
        ensures unchanged { (result ≡ false) ↔ (known.new ≡ known.old) }
        ensures keeps { KeepsRaised K.rules news.old known.old news.new known.new }
    {
        if self.is_past(number, news) {
            false
        } else {
            let passes = self.pass(number, known, room);
            join_noting(passes, known, room, news)
        }
    }

    /// Whether not all is news, and the block from which an edge leads touches none of the variables that are.
    fn is_past(&self, number: usize, news: &StateNews) -> bool
        requires valid { IsStateFlow K.rules self.now }
        requires in_range { number < length self.now.targets.now }
        ensures whole { result ≡ true → news.now.whole ≡ false }
        ensures apart { result ≡ true → AreApart self.now.graph.now.shared
            self.now.graph.now.nodes (block_at self.now.blocks.now.lists (number / 2))
            news.now.raised }
    {
        if news.are_all() {
            false
        } else {
            are_apart(self.graph, self.blocks.nodes(number / 2), news.raised())
        }
    }

    /// Joins all that passes.
    fn join_whole(
        &self,
        number: usize,
        known: &Facts<K>,
        room: &mut Facts<K>,
        into: &mut Facts<K>,
        into_news: &mut StateNews,
    ) -> bool
        requires valid { IsStateFlow K.rules self.now }
        requires in_range { number < length self.now.targets.now }
        requires fits { length known.now ≡ length room.old }
        requires long { length known.now ≡ length into.old }
        ensures room { length room.new ≡ length room.old }
        ensures joined { Joins (BelowState K.below) (net_of K.rules self.now) number
            (Knows known.now) (Knows into.old) (Knows into.new) }
        ensures unchanged { (result ≡ false) ↔ (into.new ≡ into.old) }
        ensures keeps { KeepsRaised K.rules into_news.old into.old into_news.new into.new }
    {
        let passes = self.pass(number, known, room);
        join_noting(passes, into, room, into_news)
    }

    /// Joins what passes where all has passed but for these variables, which the block does not touch.
    fn join_past(
        &self,
        number: usize,
        known: &Facts<K>,
        raised: &[usize],
        room: &mut Facts<K>,
        into: &mut Facts<K>,
        into_news: &mut StateNews,
    ) -> bool
        requires valid { IsStateFlow K.rules self.now }
        requires in_range { number < length self.now.targets.now }
        requires fits { length known.now ≡ length room.old }
        requires long { length known.now ≡ length into.old }
        requires apart { AreApart self.now.graph.now.shared self.now.graph.now.nodes
            (block_at self.now.blocks.now.lists (number / 2)) raised.now }
        requires passed { HasPassed K.below K.rules ((net_of K.rules self.now).transfer number)
            raised.now (Knows known.now) (Knows into.old) }
        ensures room { length room.new ≡ length room.old }
        ensures joined { Joins (BelowState K.below) (net_of K.rules self.now) number
            (Knows known.now) (Knows into.old) (Knows into.new) }
        ensures unchanged { (result ≡ false) ↔ (into.new ≡ into.old) }
        ensures keeps { KeepsRaised K.rules into_news.old into.old into_news.new into.new }
    {
        if self.passes_still(number, known, room) {
            into.join_raised(known, raised, into_news)
        } else {
            false
        }
    }

    /// Whether anything passes along an edge of a block before which this is known, found out with room for as much.
    fn passes_still(&self, number: usize, known: &Facts<K>, room: &mut Facts<K>) -> bool
        requires valid { IsStateFlow K.rules self.now }
        requires in_range { number < length self.now.targets.now }
        requires fits { length known.now ≡ length room.old }
        ensures long { length room.new ≡ length room.old }
        ensures passes { result
            ≡ is_reached ((net_of K.rules self.now).transfer number (Knows known.now)) }
    {
        let list = self.blocks.nodes(number / 2);
        if number % 2 == 0 && all_go_on(self.graph, list) {
            true
        } else if may_pass::<K>(self.graph.node(last(list)), number % 2) {
            take_read(self.graph, list, known, room);
            let reaches = pass_inner(self.graph, list, true, room, self.outside);
            steps_on(reaches, room, self.graph.node(last(list)), number % 2)
        } else {
            false
        }
    }

    /// Writes to the room what passes along an edge of a block before which this is known, and answers whether anything
    /// does.
    fn pass(&self, number: usize, known: &Facts<K>, room: &mut Facts<K>) -> bool
        requires valid { IsStateFlow K.rules self.now }
        requires in_range { number < length self.now.targets.now }
        requires fits { length known.now ≡ length room.old }
        ensures { state_where result room.new
            ≡ (net_of K.rules self.now).transfer number (state_where true known.now) }
    {
        let list = self.blocks.nodes(number / 2);
        if may_pass::<K>(self.graph.node(last(list)), number % 2) {
            room.refill(known);
            leave(self.graph, list, number % 2, true, room, self.outside)
        } else {
            false
        }
    }
}

/// Makes all news where a state changed.
fn renew_if(changed: bool, news: &mut StateNews)
    ensures all { changed ≡ true → IsAllNew news.new }
    ensures kept { changed ≡ false → news.new ≡ news.old }
{
    if changed {
        news.renew();
    }
}

/// Turns what is known into what is known where something passes to a block that is reached, and answers whether that
/// changed.
fn join_where<K: Knowledge>(passes: bool, known: &mut Facts<K>, passed: &Facts<K>) -> bool
    requires { length passed.now ≡ length known.old }
    ensures joined { known.new
        ≡ (if passes then joined_each K.rules.joined known.old passed.now
        else known.old) }
    ensures unchanged { (result ≡ false) ↔ (known.new ≡ known.old) }
{
    if passes {
        known.join_from(passed)
    } else {
        false
    }
}

/// The same, and each variable of which more may be known then is put among the news.
fn join_noting<K: Knowledge>(
    passes: bool,
    known: &mut Facts<K>,
    passed: &Facts<K>,
    news: &mut StateNews,
) -> bool
    requires { length passed.now ≡ length known.old }
    ensures joined { known.new
        ≡ (if passes then joined_each K.rules.joined known.old passed.now
        else known.old) }
    ensures unchanged { (result ≡ false) ↔ (known.new ≡ known.old) }
    ensures keeps { KeepsRaised K.rules news.old known.old news.new known.new }
{
    if passes {
        known.join_noting(passed, news)
    } else {
        false
    }
}

/// Turns what is known before a block into what passes through it and along the edge at this slot of its last node, and
/// answers whether anything does.
fn leave<K: Knowledge>(
    graph: &Graph,
    list: &[usize],
    slot: usize,
    reached: bool,
    known: &mut Facts<K>,
    outside: &Outside<K>,
) -> bool
    requires { IsChain graph.now.nodes list.now }
    ensures { state_where result known.new
        ≡ out_of (along_in K.rules outside.now graph.now) graph.now.nodes
        list.now slot (state_where reached known.old) }
{
    let last = last(list);
    let reaches = pass_inner(graph, list, reached, known, outside);
    step(
        reaches,
        known,
        graph.node(last),
        slot,
        graph.shared(),
        graph.received(),
        outside,
    )
}

/// Turns what is known before the first node of a block into what passes to the last, and answers whether anything
/// does.
fn pass_inner<K: Knowledge>(
    graph: &Graph,
    list: &[usize],
    reached: bool,
    known: &mut Facts<K>,
    outside: &Outside<K>,
) -> bool
    requires chain { IsChain graph.now.nodes list.now }
    requires some { 0 < length list.now }
    ensures { state_where result known.new
        ≡ through_nodes (along_in K.rules outside.now graph.now) graph.now.nodes
        (take (length list.now - 1) list.now) (state_where reached known.old) }
{
    let mut reaches = reached;
    for i in 1..list.len() {
        let node = graph.node(list[i - 1]);
        reaches = step(
            reaches,
            known,
            node,
            0,
            graph.shared(),
            graph.received(),
            outside,
        );
    }
    reaches
}

/// The last of these nodes.
pub(crate) fn last(list: &[usize]) -> usize
    requires { 0 < length list.now }
    ensures { result ≡ last_of list.now }
{
    list[list.len() - 1]
}
