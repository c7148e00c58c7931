// Flows that count their own pushes: on a chain of joins, down a line, and on the graph of a loop.
ghost use Rattle.std.specs.Prelude.{◌≡◌, ◌<◌, ◌-◌, ◌+◌, false, IfOk, length};
ghost use Rattle.mir_tests.specs.Ladder.{Under, level, level_laws, level_size};
ghost use Rattle.mir_tests.specs.Levels.{levels, levels_laws};
ghost use Rattle.mir_tests.specs.Squares.{EachImplies, size_of_three, squares, squares_laws, three_laws, trues_of};
ghost use Rattle.fix_solve.specs.NewsFlows.{untold_laws};

use fix_solve::{AllNews, Flow, Lattice, Memory, NoRoom, Steps, Work, solve};
use std::alloc::Global;
use std::cell::Cell;
use std::marker::{Brand, Model, PhantomData};
use std::sync::ledger::{Blank, Ledger};
use std::test::Fail;

/// A level. Contracts see it as a number.
#[derive(Drop)]
struct Level {
    level: u64,
}

impl Model for Level {
    ghost use Rattle.std.specs.Prelude.{ℕ};

    ghost Value = { ℕ };

    ghost view = { λ level. level.level };
}

impl Lattice for Level {
    type News = AllNews;

    type Room = NoRoom;

    ghost below = { Under };

    ghost size = { level_size };

    ghost rank = { level };

    fn join_from(&mut self, other: &Self) -> bool {
        let rises = self.level < other.level;
        if rises {
            self.level = other.level;
        }
        rises
    }

    ghost laws = { level_laws };
}

/// Levels that run down a line of nodes from the last one, which begins with the highest; or along a chain of joins,
/// from the first on, where each join begins with a lower one than that before it.
#[derive(Drop)]
struct Levels<L: Ledger> {
    is_line: bool,
    length: usize,
    pushes: Cell<u64>,
    ledger: PhantomData<L>,
}

impl<L: Ledger> Flow for Levels<L> {
    type Value = Level;

    type Ledger = L;

    ghost valid = { λ l. l.length < 256 };

    ghost net = { λ l. levels l.is_line l.length };

    fn nodes(&self) -> usize {
        self.edges() + 1
    }

    fn edges(&self) -> usize {
        if self.is_line {
            self.length
        } else {
            2 * self.length
        }
    }

    fn edge(&self, number: usize) -> (usize, usize) {
        if self.is_line {
            (number + 1, number)
        } else if number < self.length {
            (number, self.length + 1 + number)
        } else {
            (number + 1, number - self.length + 1)
        }
    }

    fn out(&self, node: usize) -> (usize, usize) {
        if self.is_line {
            return (node.saturating_sub(1), node);
        }
        let start = if self.length < node { node - 1 } else { node };
        let stop = if node < self.length { node + 1 } else { node };
        (start, stop)
    }

    fn first(&self, _alloc: Global, node: usize) -> Result<Level, Memory> {
        let level = if self.is_line {
            node
        } else {
            self.length.saturating_sub(node)
        };
        Ok(Level {
            level: level as u64,
        })
    }

    fn news(&self, _alloc: Global) -> Result<AllNews, Memory> {
        Ok(AllNews)
    }

    fn room(&self, _alloc: Global) -> Result<NoRoom, Memory> {
        Ok(NoRoom)
    }

    fn push(
        &self,
        _number: usize,
        _target: usize,
        from: &Level,
        into: &mut Level,
        _room: &mut NoRoom,
        steps: &mut Steps<L>,
    ) -> bool {
        count(&self.pushes, steps);
        into.join_from(from)
    }

    fn push_self(
        &self,
        _number: usize,
        _value: &mut Level,
        _room: &mut NoRoom,
        steps: &mut Steps<L>,
    ) -> bool {
        count(&self.pushes, steps);
        false
    }

    ghost laws = { λ l v. levels_laws l.is_line l.length v };

    ghost news_laws = { λ f v. untold_laws };
}

/// Three truth values.
#[derive(Drop)]
struct Marks {
    first: bool,
    second: bool,
    third: bool,
}

impl Model for Marks {
    ghost use Rattle.mir_tests.specs.Squares.{Three};

    ghost Value = { Three };

    ghost view = { λ marks. (marks.first, marks.second, marks.third) };
}

impl Lattice for Marks {
    type News = AllNews;

    type Room = NoRoom;

    ghost below = { EachImplies };

    ghost size = { size_of_three };

    ghost rank = { trues_of };

    fn join_from(&mut self, other: &Self) -> bool {
        let rises = (!self.first & other.first)
            | (!self.second & other.second)
            | (!self.third & other.third);
        self.first = self.first | other.first;
        self.second = self.second | other.second;
        self.third = self.third | other.third;
        rises
    }

    ghost laws = { three_laws };
}

/// Three truth values that run along the edges of the graph of a loop, each from one node on, and the third not on from
/// the node that gives it up. With one edge more: the last node leads to itself.
#[derive(Drop)]
struct Squares<L: Ledger> {
    pushes: Cell<u64>,
    ledger: PhantomData<L>,
}

impl<L: Ledger> Flow for Squares<L> {
    type Value = Marks;

    type Ledger = L;

    ghost valid = { λ s. Unit {0} };

    ghost net = { λ s. squares };

    fn nodes(&self) -> usize {
        14
    }

    fn edges(&self) -> usize {
        15
    }

    fn edge(&self, number: usize) -> (usize, usize) {
        let source = number - number.saturating_sub(3).min(1);
        let target = if number == 4 {
            10
        } else if number == 10 {
            3
        } else {
            (source + 1).min(13)
        };
        (source, target)
    }

    fn out(&self, node: usize) -> (usize, usize) {
        let start = node + node.saturating_sub(3).min(1);
        let stop = node + 1 + node.saturating_sub(2).min(1);
        (start, stop)
    }

    fn first(&self, _alloc: Global, node: usize) -> Result<Marks, Memory> {
        Ok(Marks {
            first: node == 5,
            second: node == 6,
            third: node == 8,
        })
    }

    fn news(&self, _alloc: Global) -> Result<AllNews, Memory> {
        Ok(AllNews)
    }

    fn room(&self, _alloc: Global) -> Result<NoRoom, Memory> {
        Ok(NoRoom)
    }

    fn push(
        &self,
        number: usize,
        _target: usize,
        from: &Marks,
        into: &mut Marks,
        _room: &mut NoRoom,
        steps: &mut Steps<L>,
    ) -> bool {
        let from = along(number, from);
        count(&self.pushes, steps);
        into.join_from(&from)
    }

    fn push_self(
        &self,
        number: usize,
        value: &mut Marks,
        _room: &mut NoRoom,
        steps: &mut Steps<L>,
    ) -> bool {
        let from = along(number, value);
        count(&self.pushes, steps);
        value.join_from(&from)
    }

    ghost laws = { λ s v. squares_laws };

    ghost news_laws = { λ f v. untold_laws };
}

/// The values after an edge: the third is given up on the way to the node that begins it.
fn along(number: usize, from: &Marks) -> Marks
    ensures { result ≡ squares.transfer number from.now }
{
    Marks {
        first: from.first,
        second: from.second,
        third: if number == 8 { false } else { from.third },
    }
}

/// Counts one push, on the ledger and for the test.
fn count<L: Ledger>(pushes: &Cell<u64>, steps: &mut Steps<L>)
    ensures { steps.new ≡ steps.old + 1 }
{
    steps.tick();
    pushes.set(pushes.get().wrapping_add(1));
}

/// The values of a flow once it is solved.
fn solved<F: Flow>(alloc: Global, flow: &F, blank: Blank) -> Result<Work<F::Value>, Memory>
    requires valid { F.valid flow.now }
    requires name { blank.name ≡ F.Ledger.name }
    requires parts { blank.parts ≡ F.Ledger.parts }
    requires some { 0 < blank.parts }
    ensures { IfOk result (λ work. length work ≡ (F.net flow.now).nodes) }
{
    let mut work = Work::new(alloc, flow)?;
    let mut steps = Steps::<F::Ledger>::new(blank);
    solve(&mut work, flow, &mut steps);
    Ok(work)
}

/// How many pushes solve the line or the chain of joins.
fn pushes_of<L: Ledger>(
    alloc: Global,
    is_line: bool,
    length: usize,
    blank: Blank,
) -> Result<u64, Memory>
    requires few { length < 256 }
    requires name { blank.name ≡ L.name }
    requires parts { blank.parts ≡ L.parts }
    requires some { 0 < blank.parts }
{
    let flow = Levels {
        is_line,
        length,
        pushes: Cell::new(0),
        ledger: PhantomData::<L>,
    };
    let _work = solved(alloc, &flow, blank)?;
    Ok(flow.pushes.get())
}

/// Each edge is pushed along once: of the chain, of which half of the edges lead down, and of the line, of which all
/// do; in the order of the numbers the line would take 20,100 pushes.
#[test]
fn each_edge_is_pushed_along_once(rt: HostRuntime) -> Result<(), Fail> {
    for (is_line, pushes) in [(false, 400), (true, 200)] {
        assert_eq!(rt;
            pushes_of::<Brand>(rt.alloc(), is_line, 200, Blank::new(1))?,
            pushes
        );
    }
    Ok(())
}

/// How many pushes solve the loop, and at how many nodes all three values are then true.
fn looped<L: Ledger>(alloc: Global, blank: Blank) -> Result<(u64, usize), Memory>
    requires name { blank.name ≡ L.name }
    requires parts { blank.parts ≡ L.parts }
    requires some { 0 < blank.parts }
{
    let flow = Squares {
        pushes: Cell::new(0),
        ledger: PhantomData::<L>,
    };
    let work = solved(alloc, &flow, blank)?;
    let all = (0..14)
        .filter(|node| {
            let marks = work.value(*node);
            marks.first & marks.second & marks.third
        })
        .count();
    Ok((flow.pushes.get(), all))
}

/// The bound is 15 edges for each of 3 ranks and one more.
#[test]
fn a_loop_of_three_bits_keeps_the_bound(rt: HostRuntime) -> Result<(), Fail> {
    let (pushes, all) = looped::<Brand>(rt.alloc(), Blank::new(1))?;
    assert!(rt; pushes <= 15 * (3 + 1));
    assert_eq!(rt; all, 11);
    Ok(())
}
