// What is known of a variable, and what is known where two paths meet.
ghost use Rattle.std.specs.Prelude.{◌≡◌, ◌↔◌, false, true};
ghost use Rattle.fix_solve.specs.Order.{IsLeastUpper};
ghost use Rattle.bounds.specs.Facts.{BelowFact, fact_rank, high_end, hull, joined_fact, low_end};
ghost use Rattle.bounds.specs.FactLaws.{fact_laws, fact_size};

use crate::ends::{End, are_same_ends, ceiling, floor, lower, upper};
use fix_solve::{AllNews, Lattice, NoRoom};

/// What is known of the value of a variable.
#[derive(Clone, Copy, Debug, PartialEq, Eq)]
pub enum Fact {
    /// It has none: no run comes here.
    Never,
    /// The value is this number.
    Fixed(i64),
    /// It is from the first end to the second.
    Between(End, End),
}

/// What is known where two paths meet: equal constants stay, and else the least interval with such ends that holds
/// both facts.
pub(crate) fn joined_fact(x: Fact, y: Fact) -> Fact
    ensures { result ≡ joined_fact x y }
{
    match x {
        Fact::Never => y,
        Fact::Fixed(a) => match y {
            Fact::Never => x,
            Fact::Fixed(b) => { if a == b { x } else { hull(x, y) } }
            Fact::Between(_, _) => hull(x, y),
        },
        Fact::Between(_, _) => match y {
            Fact::Never => x,
            Fact::Fixed(_) => hull(x, y),
            Fact::Between(_, _) => hull(x, y),
        },
    }
}

/// The least interval with such ends that holds both facts.
fn hull(x: Fact, y: Fact) -> Fact
    ensures { result ≡ hull x y }
{
    Fact::Between(
        lower(low_end(x), low_end(y)),
        upper(high_end(x), high_end(y)),
    )
}

/// The greatest end that is at most all of which the fact holds.
fn low_end(x: Fact) -> End
    ensures { result ≡ low_end x }
{
    match x {
        Fact::Never => End::Greatest,
        Fact::Fixed(c) => floor(c),
        Fact::Between(e, _) => e,
    }
}

/// The least end that is at least all of which it holds.
fn high_end(x: Fact) -> End
    ensures { result ≡ high_end x }
{
    match x {
        Fact::Never => End::Least,
        Fact::Fixed(c) => ceiling(c),
        Fact::Between(_, f) => f,
    }
}

/// Whether two facts are one.
pub(crate) fn are_same(x: Fact, y: Fact) -> bool
    ensures same { result ≡ true → x ≡ y }
    ensures differ { x ≡ y → result ≡ true }
{
    match x {
        Fact::Never => match y {
            Fact::Never => true,
            Fact::Fixed(_) => false,
            Fact::Between(_, _) => false,
        },
        Fact::Fixed(a) => match y {
            Fact::Never => false,
            Fact::Fixed(b) => a == b,
            Fact::Between(_, _) => false,
        },
        Fact::Between(e, f) => match y {
            Fact::Never => false,
            Fact::Fixed(_) => false,
            Fact::Between(g, h) => are_same_ends(e, g) && are_same_ends(f, h),
        },
    }
}

impl Lattice for Fact {
    type News = AllNews;

    type Room = NoRoom;

    ghost below = { BelowFact };

    ghost size = { fact_size };

    ghost rank = { fact_rank };

    #[tactic(auto, using(crate::specs::FactLaws::fact_joins))]
    fn join_from(&mut self, other: &Self) -> bool {
        let met = joined_fact(*self, *other);
        if are_same(met, *self) {
            false
        } else {
            *self = met;
            true
        }
    }

    ghost laws = { fact_laws };
}
