// Rows of bits as values of a flow over a list of edges.
ghost use Rattle.std.specs.Prelude.{◌≡◌, ◌+◌, ◌*◌, ◌≤◌, length, IfOk, OnErr, OnOk};
ghost use Rattle.bit_rows.specs.Bits.{row_of};
ghost use Rattle.path_laws.specs.Flow.{AreOut, HasSeed, IsInOrder, IsSeeded, caught_in, flow_laws, net_of, news_laws, seed_rows};
ghost use Rattle.path_laws.specs.Order.{BelowBits, trues};
ghost use Rattle.path_laws.specs.OrderLaws.{bits_laws};
ghost use Rattle.path_laws.specs.Paths.{AreRows};

use crate::between::BlockEdges;
use crate::problems::Problem;
use crate::row_news::{MOST_SHORT, RowNews};
use crate::summaries::seed_of;
use bit_rows::{Row, RowView, Rows};
use fix_solve::{Flow, Lattice, NoRoom, Steps, Work, solve};
use flow_graph::Edge;
use mir_base::Memory;
use std::alloc::Global;
use std::marker::{Model, PhantomData};
use std::sync::ledger::Ledger;

/// A row, ordered by implication bit by bit. Contracts see it as the row.
#[derive(Drop)]
pub struct Bits {
    pub(crate) row: Row,
}

impl Model for Bits {
    ghost use Rattle.std.specs.Prelude.{List, Bool};

    ghost Value = { List Bool };

    ghost view = { λ bits. bits.row };
}

impl Bits {
    /// The row. It does not allocate.
    pub fn row(&self) -> RowView<'_>
        ensures { result ≡ self.now }
    {
        self.row.view()
    }
}

impl Lattice for Bits {
    type News = RowNews;

    type Room = NoRoom;

    ghost below = { BelowBits };

    ghost size = { length };

    ghost rank = { trues };

    fn join_from(&mut self, other: &Self) -> bool {
        self.row.or_from(&other.row.view())
    }

    ghost laws = { bits_laws };
}

/// What comes out of each block where nothing comes to it.
#[derive(Clone, Copy)]
pub enum Seeds<'a> {
    /// What a problem says of its blocks, which is worked out for each block when it is asked.
    OfProblem(&'a Problem<'a>),
    /// A row for each block.
    OfRows(&'a Rows),
}

/// The seeds of one block.
fn seed_row(alloc: Global, seeds: &Seeds<'_>, block: usize) -> Result<Row, Memory>
    requires { HasSeed seeds.now block }
    ensures { IfOk result (λ row. row ≡ row_of (seed_rows seeds.now) block) }
{
    match seeds {
        Seeds::OfProblem(problem) => seed_of(alloc, problem, block),
        Seeds::OfRows(rows) => Row::of(alloc, &rows.row(block)),
    }
}

/// Bits flow along the edges between so many blocks, from those that seed them. What is true after a block comes on to
/// the next, where that one does not stop it.
#[derive(Drop)]
pub struct BitFlow<'a, L: Ledger> {
    pub(crate) count: usize,
    pub(crate) between: &'a BlockEdges,
    pub(crate) seeds: Seeds<'a>,
    pub(crate) stops: &'a Rows,
    pub(crate) bits: usize,
    pub(crate) ledger: PhantomData<L>,
}

impl<'a, L: Ledger> Flow for BitFlow<'a, L> {
    type Value = Bits;

    type Ledger = L;

    ghost valid = { IsInOrder };

    ghost net = { net_of };

    ghost caught = { caught_in };

    fn nodes(&self) -> usize {
        self.count
    }

    fn edges(&self) -> usize {
        self.between.edges.len()
    }

    fn edge(&self, number: usize) -> (usize, usize) {
        let edge = self.between.edges[number];
        (edge.source, edge.target)
    }

    fn out(&self, node: usize) -> (usize, usize) {
        (self.between.firsts[node], self.between.firsts[node + 1])
    }

    fn first(&self, alloc: Global, node: usize) -> Result<Bits, Memory> {
        let row = seed_row(alloc, &self.seeds, node)?;
        Ok(Bits { row })
    }

    fn news(&self, alloc: Global) -> Result<RowNews, Memory> {
        let news = RowNews::new(alloc, self.bits)?;
        Ok(news)
    }

    fn room(&self, _alloc: Global) -> Result<NoRoom, Memory> {
        Ok(NoRoom)
    }

    fn push(
        &self,
        _number: usize,
        target: usize,
        from: &Bits,
        into: &mut Bits,
        _room: &mut NoRoom,
        steps: &mut Steps<L>,
    ) -> bool {
        steps.tick();
        let stop = self.stops.row(target);
        into.row.or_minus_from(&from.row.view(), &stop)
    }

    fn push_self(
        &self,
        _number: usize,
        _value: &mut Bits,
        _room: &mut NoRoom,
        steps: &mut Steps<L>,
    ) -> bool {
        steps.tick();
        false
    }

    fn push_news(
        &self,
        number: usize,
        target: usize,
        from: &Bits,
        news: &RowNews,
        into: &mut Bits,
        into_news: &mut RowNews,
        room: &mut NoRoom,
        steps: &mut Steps<L>,
    ) -> bool {
        if self.bits <= MOST_SHORT || (news.are_all() && into_news.are_all()) {
            return self.push(number, target, from, into, room, steps);
        }
        steps.tick();
        let stop = self.stops.row(target);
        let marks = news.marks.view();
        into.row
            .or_minus_marked(&from.row.view(), &stop, &marks, &mut into_news.marks)
    }

    ghost laws = { flow_laws };

    ghost news_laws = { news_laws };
}

/// Which bits come out of each of so many blocks: from a seed, over blocks of which none stops them. There are so many
/// bits, and the counter rises by the pushes.
pub(crate) fn out_of_blocks<L: Ledger>(
    alloc: Global,
    count: usize,
    between: &BlockEdges,
    seeds: &Seeds<'_>,
    stops: &Rows,
    bits: usize,
    steps: &mut Steps<L>,
) -> Result<Work<Bits>, Memory>
    requires { IsSeeded count between.now seeds.now stops.now bits }
    ensures shape { IfOk result (AreRows count bits) }
    ensures out { IfOk result
        (AreOut between.now.edges.items (seed_rows seeds.now) stops.now bits) }
    ensures pushes { steps.new ≤ steps.old + length between.now.edges.items * (bits + 1) }
    ensures counts { steps.old ≤ steps.new }
    ensures err { OnErr result (steps.new ≡ steps.old) }
{
    let flow = BitFlow {
        count,
        between,
        seeds: *seeds,
        stops,
        bits,
        ledger: PhantomData::<L>,
    };
    let mut work = Work::new(alloc, &flow)?;
    solve(&mut work, &flow, steps);
    Ok(work)
}
