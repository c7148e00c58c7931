// The values at the nodes, and the solver's call.
ghost use Rattle.std.specs.Prelude.{◌≡◌, ◌+◌, ◌<◌, ◌≤◌, IfOk, length, slice_index_or};
ghost use Rattle.fix_solve.specs.NewsFlows.{NewsFit};
ghost use Rattle.fix_solve.specs.Net.{AreOfSize, HoldsFirst, HoldsLeast, most_pushes};

use crate::circles::Circles;
use crate::ends::Ends;
use crate::order::order_of;
use crate::pushes::solve_from;
use crate::{Flow, Lattice, Memory, Steps};
use node_list::Links;
use std::alloc::Global;
use std::marker::Model;

/// A value for each node. Contracts see it as the list of these.
///
/// It also holds what of each is news, room for one on its way, the list of the nodes that wait for a visit, what says
/// which of them is next, and the order in which they are first visited, the last first, so that the solver does not
/// allocate.
#[derive(Drop)]
pub struct Work<V: Lattice> {
    values: Vec<V>,
    news: Vec<V::News>,
    room: V::Room,
    waiting: Links,
    ends: Ends,
    order: Vec<usize>,
}

impl<V: Lattice> Model for Work<V> {
    ghost use Rattle.std.specs.Prelude.{List};
    ghost use Rattle.fix_solve.specs.Solving.{CanWait, HasRoom, HaveNews};

    ghost Value = { List V };

    ghost view = { λ work. work.values.items };

    ghost invariant = { λ work. CanWait work.waiting work.values.items work.order.items
        × HaveNews V.size V.News.fits work.values.items work.news.items
        × HasRoom V.size V.Room.fits work.values.items work.room };
}

impl<V: Lattice + Drop> Work<V> {
    /// Holds the first value of each node. It fails only with `Memory`.
    pub fn new<F: Flow<Value = V>>(alloc: Global, flow: &F) -> Result<Self, Memory>
        requires { F.valid flow.now }
        ensures { IfOk result (λ work. HoldsFirst (F.net flow.now) work) }
    {
        let values = first_values(alloc, flow)?;
        let news = first_news(alloc, flow)?;
        let room = flow.room(alloc)?;
        let waiting = Links::new(alloc, flow.nodes(), 1)?;
        let walk = order_of(alloc, flow)?;
        let order = walk.order;
        let circles = Circles::new(alloc, walk.froms, walk.backs)?;
        let ends = Ends::new(alloc, flow.nodes(), circles)?;
        Ok(Work {
            values,
            news,
            room,
            waiting,
            ends,
            order,
        })
    }

    /// The value of a node. It does not allocate.
    pub fn value(&self, node: usize) -> &V
        requires { node < length self.now }
        ensures { result.now ≡ slice_index_or self.now node result.now }
    {
        &self.values[node]
    }
}

/// The first value of each node.
fn first_values<F: Flow>(alloc: Global, flow: &F) -> Result<Vec<F::Value>, Memory>
    requires { F.valid flow.now }
    ensures { IfOk result (λ values. HoldsFirst (F.net flow.now) values.items) }
{
    let nodes = flow.nodes();
    let mut values = Vec::with_capacity(alloc, nodes)?;
    for node in 0..nodes {
        values.push(flow.first(alloc, node)?)?;
    }
    Ok(values)
}

/// For each node a record of news that fits a value of the flow's size.
fn first_news<F: Flow>(alloc: Global, flow: &F) -> Result<Vec<<F::Value as Lattice>::News>, Memory>
    requires { F.valid flow.now }
    ensures { IfOk result (λ news.
        NewsFit F.Value.News.fits (F.net flow.now).nodes (F.net flow.now).size news.items) }
{
    let nodes = flow.nodes();
    let mut news = Vec::with_capacity(alloc, nodes)?;
    for _node in 0..nodes {
        news.push(flow.news(alloc)?)?;
    }
    Ok(news)
}

/// Leaves the least values that lie above the first one at each node and above the transfer along each edge (the least
/// solution), all of the flow's size. The work must hold the first value of each node, as `Work::new` leaves it.
///
/// It does not allocate, and raises the counter by at most the number of edges for each rank of a value and one more.
/// The counter rises by one with each push, and by nothing else.
pub fn solve<F: Flow>(work: &mut Work<F::Value>, flow: &F, steps: &mut Steps<F::Ledger>)
    requires valid { F.valid flow.now }
    requires first { HoldsFirst (F.net flow.now) work.old }
    ensures len { length work.new ≡ (F.net flow.now).nodes }
    ensures sizes { AreOfSize F.Value.size (F.net flow.now) work.new }
    ensures least { HoldsLeast F.Value.below (F.net flow.now) work.new }
    ensures pushes { steps.new ≤ steps.old + most_pushes (F.net flow.now) }
    ensures counts { steps.old ≤ steps.new }
{
    solve_from(
        &mut work.values,
        &mut work.news,
        &mut work.room,
        &mut work.waiting,
        &mut work.ends,
        &work.order,
        flow,
        steps,
    );
}
