// What is solved: values with an order, and how they flow along edges.
ghost use Rattle.std.specs.Prelude.{◌≡◌, ℕ, ◌+◌, ◌<◌, ◌↔◌, false, IfOk};
ghost use Rattle.fix_solve.specs.Order.{OrderLaws, IsLeastUpper};
ghost use Rattle.fix_solve.specs.Net.{Joins, JoinsItself, Net, NetLaws};
ghost use Rattle.fix_solve.specs.NewsFlows.{Keeps, NewsLaws, Untold};

use crate::{Memory, News, Room, Steps};
use std::alloc::Global;
use std::sync::ledger::Ledger as Counted;

/// Values with an order, in which only values of one size are comparable. The rank rises strictly with the order.
pub trait Lattice {
    /// What of a value is news, where a flow tells it; else `AllNews`.
    type News: News;

    /// Room for a value on its way along an edge, where a push wants it; else `NoRoom`.
    type Room: Room;

    ghost below: { Self → Self → Type 0 };

    ghost size: { Self → ℕ };

    ghost rank: { Self → ℕ };

    /// Leaves the least upper bound of the two values, and answers whether this one changed. It does not allocate.
    fn join_from(&mut self, other: &Self) -> bool
        requires { size self.old ≡ size other.now }
        ensures joined { IsLeastUpper below self.old other.now self.new }
        ensures unchanged { (result ≡ false) ↔ (self.new ≡ self.old) };

    ghost laws: { OrderLaws below size rank };
}

/// Values at nodes numbered from 0, and a transfer along each edge. Edges are numbered from 0 by their sources, so the
/// edges of one node have consecutive numbers.
pub trait Flow {
    type Value: Lattice + Drop;

    /// Names the counter that the pushes of this flow are counted on.
    type Ledger: Counted;

    /// Holds of the flows that keep the laws.
    ghost valid: { Self → Type 0 };

    /// The flow as contracts see it.
    ghost net: { Self → Net Self.Value };

    /// Along an edge, what is not among the news of the value at its source is already in the value at its target. A flow
    /// that leaves this out tells no news.
    ghost caught: { Self → ℕ → Self.Value.News → Self.Value → Self.Value → Type 0 } = { λ _. Untold };

    /// How many nodes there are. It does not allocate.
    fn nodes(&self) -> usize
        requires { valid self.now }
        ensures { result ≡ (net self.now).nodes };

    /// How many edges there are. It does not allocate.
    fn edges(&self) -> usize
        requires { valid self.now }
        ensures { result ≡ (net self.now).edges };

    /// An edge's source and target. It does not allocate.
    fn edge(&self, number: usize) -> (usize, usize)
        requires valid { valid self.now }
        requires in_range { number < (net self.now).edges }
        ensures source { result.0 ≡ (net self.now).source number }
        ensures target { result.1 ≡ (net self.now).target number };

    /// The first number of a node's edges, and the number past the last. It does not allocate.
    fn out(&self, node: usize) -> (usize, usize)
        requires valid { valid self.now }
        requires in_range { node < (net self.now).nodes }
        ensures start { result.0 ≡ (net self.now).start node }
        ensures stop { result.1 ≡ (net self.now).stop node };

    /// The value that a node begins with. It fails only with `Memory`.
    fn first(&self, alloc: Global, node: usize) -> Result<Self::Value, Memory>
        requires valid { valid self.now }
        requires in_range { node < (net self.now).nodes }
        ensures { IfOk result (λ value. value ≡ (net self.now).first node) };

    /// News of a value of this flow, whatever they say. It fails only with `Memory`.
    fn news(&self, alloc: Global) -> Result<<Self::Value as Lattice>::News, Memory>
        requires { valid self.now }
        ensures { IfOk result (λ news. Self.Value.News.fits news (net self.now).size) };

    /// Room for a value of this flow, which each push is given. It fails only with `Memory`.
    fn room(&self, alloc: Global) -> Result<<Self::Value as Lattice>::Room, Memory>
        requires { valid self.now }
        ensures { IfOk result (λ room. Self.Value.Room.fits room (net self.now).size) };

    /// Replaces `into` by its least upper bound with the transfer of `from` along the edge of this number and target,
    /// answers whether `into` changed, and adds one to the counter. It does not allocate.
    fn push(
        &self,
        number: usize,
        target: usize,
        from: &Self::Value,
        into: &mut Self::Value,
        room: &mut <Self::Value as Lattice>::Room,
        steps: &mut Steps<Self::Ledger>,
    ) -> bool
        requires valid { valid self.now }
        requires in_range { number < (net self.now).edges }
        requires target { target ≡ (net self.now).target number }
        requires from_size { Self.Value.size from.now ≡ (net self.now).size }
        requires into_size { Self.Value.size into.old ≡ (net self.now).size }
        requires room { Self.Value.Room.fits room.old (net self.now).size }
        ensures room { Self.Value.Room.fits room.new (net self.now).size }
        ensures joined { Joins Self.Value.below (net self.now) number from.now into.old into.new }
        ensures unchanged { (result ≡ false) ↔ (into.new ≡ into.old) }
        ensures counted { steps.new ≡ steps.old + 1 };

    /// `push` along an edge from a node to itself, where `from` and `into` would be one value: what is joined is the
    /// transfer of the value as it was. It does not allocate.
    fn push_self(
        &self,
        number: usize,
        value: &mut Self::Value,
        room: &mut <Self::Value as Lattice>::Room,
        steps: &mut Steps<Self::Ledger>,
    ) -> bool
        requires valid { valid self.now }
        requires in_range { number < (net self.now).edges }
        requires size { Self.Value.size value.old ≡ (net self.now).size }
        requires room { Self.Value.Room.fits room.old (net self.now).size }
        ensures room { Self.Value.Room.fits room.new (net self.now).size }
        ensures joined { JoinsItself Self.Value.below (net self.now) number value.old value.new }
        ensures unchanged { (result ≡ false) ↔ (value.new ≡ value.old) }
        ensures counted { steps.new ≡ steps.old + 1 };

    /// `push`, where what is not among the news of `from` is already in `into`. What `into` gets is among its own news
    /// afterwards, with what was. It does not allocate.
    ///
    /// It need not look at what is no news; where a flow leaves it out, all is pushed.
    fn push_news(
        &self,
        number: usize,
        target: usize,
        from: &Self::Value,
        news: &<Self::Value as Lattice>::News,
        into: &mut Self::Value,
        into_news: &mut <Self::Value as Lattice>::News,
        room: &mut <Self::Value as Lattice>::Room,
        steps: &mut Steps<Self::Ledger>,
    ) -> bool
        requires valid { valid self.now }
        requires in_range { number < (net self.now).edges }
        requires target { target ≡ (net self.now).target number }
        requires from_size { Self.Value.size from.now ≡ (net self.now).size }
        requires into_size { Self.Value.size into.old ≡ (net self.now).size }
        requires from_fit { Self.Value.News.fits news.now (net self.now).size }
        requires into_fit { Self.Value.News.fits into_news.old (net self.now).size }
        requires caught { caught self.now number news.now from.now into.old }
        requires room { Self.Value.Room.fits room.old (net self.now).size }
        ensures room { Self.Value.Room.fits room.new (net self.now).size }
        ensures joined { Joins Self.Value.below (net self.now) number from.now into.old into.new }
        ensures unchanged { (result ≡ false) ↔ (into.new ≡ into.old) }
        ensures keeps { Keeps (net self.now) (caught self.now) ((net self.now).target number)
            into_news.old into.old into_news.new into.new }
        ensures fit { Self.Value.News.fits into_news.new (net self.now).size }
        ensures counted { steps.new ≡ steps.old + 1 }
    {
        let changed = self.push(number, target, from, into, room, steps);
        if changed {
            into_news.renew();
        }
        changed
    }

    /// `push_news` along an edge from a node to itself. It does not allocate.
    fn push_self_news(
        &self,
        number: usize,
        value: &mut Self::Value,
        news: &mut <Self::Value as Lattice>::News,
        room: &mut <Self::Value as Lattice>::Room,
        steps: &mut Steps<Self::Ledger>,
    ) -> bool
        requires valid { valid self.now }
        requires in_range { number < (net self.now).edges }
        requires size { Self.Value.size value.old ≡ (net self.now).size }
        requires fit { Self.Value.News.fits news.old (net self.now).size }
        requires caught { caught self.now number news.old value.old value.old }
        requires room { Self.Value.Room.fits room.old (net self.now).size }
        ensures room { Self.Value.Room.fits room.new (net self.now).size }
        ensures joined { JoinsItself Self.Value.below (net self.now) number value.old value.new }
        ensures unchanged { (result ≡ false) ↔ (value.new ≡ value.old) }
        ensures keeps { Keeps (net self.now) (caught self.now) ((net self.now).target number)
            news.old value.old news.new value.new }
        ensures fit { Self.Value.News.fits news.new (net self.now).size }
        ensures counted { steps.new ≡ steps.old + 1 }
    {
        let changed = self.push_self(number, value, room, steps);
        if changed {
            news.renew();
        }
        changed
    }

    ghost laws: { (f : Self) → valid f
        → NetLaws Self.Value.below Self.Value.size Self.Value.rank (net f) };

    ghost news_laws: { (f : Self) → valid f
        → NewsLaws Self.Value.below Self.Value.size Self.Value.News.fits Self.Value.News.is_all
        Self.Value.News.is_none (net f) (caught f) };
}
