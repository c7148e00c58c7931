// Whether a number is 0: what may be known of it.
ghost use Rattle.std.specs.Prelude.{◌≡◌, true};
ghost use Rattle.zero_flow.specs.ZeroFacts.{allows, fact_where, joined_zero_fact};

/// What is known of a number: whether it is 0.
#[derive(Clone, Copy, Debug, PartialEq, Eq)]
pub enum ZeroFact {
    /// There is none: no run comes here.
    Never,
    /// It is 0.
    Zero,
    /// It is not 0.
    NotZero,
    /// It may be any number.
    Any,
}

impl ZeroFact {
    /// Whether the number may be 0. It does not allocate.
    pub fn may_be_zero(self) -> bool
        ensures { result ≡ allows self true }
    {
        allows(self, true)
    }
}

/// Whether a fact allows that the number is 0 (`true`), or that it is not (`false`).
pub(crate) fn allows(fact: ZeroFact, nought: bool) -> bool
    ensures { result ≡ allows fact nought }
{
    match fact {
        ZeroFact::Never => false,
        ZeroFact::Zero => nought,
        ZeroFact::NotZero => !nought,
        ZeroFact::Any => true,
    }
}

/// The fact that allows 0 or not, and other numbers or not.
pub(crate) fn fact_where(nought: bool, other: bool) -> ZeroFact
    ensures { result ≡ fact_where nought other }
{
    if nought {
        if other { ZeroFact::Any } else { ZeroFact::Zero }
    } else if other {
        ZeroFact::NotZero
    } else {
        ZeroFact::Never
    }
}

/// What is known where two paths meet: what either allows.
pub(crate) fn joined_zero_fact(x: ZeroFact, y: ZeroFact) -> ZeroFact
    ensures { result ≡ joined_zero_fact x y }
{
    fact_where(
        allows(x, true) || allows(y, true),
        allows(x, false) || allows(y, false),
    )
}

/// Whether two facts are one.
pub(crate) fn are_same(x: ZeroFact, y: ZeroFact) -> bool
    ensures same { result ≡ true → x ≡ y }
    ensures differ { x ≡ y → result ≡ true }
{
    match x {
        ZeroFact::Never => match y {
            ZeroFact::Never => true,
            ZeroFact::Zero => false,
            ZeroFact::NotZero => false,
            ZeroFact::Any => false,
        },
        ZeroFact::Zero => match y {
            ZeroFact::Never => false,
            ZeroFact::Zero => true,
            ZeroFact::NotZero => false,
            ZeroFact::Any => false,
        },
        ZeroFact::NotZero => match y {
            ZeroFact::Never => false,
            ZeroFact::Zero => false,
            ZeroFact::NotZero => true,
            ZeroFact::Any => false,
        },
        ZeroFact::Any => match y {
            ZeroFact::Never => false,
            ZeroFact::Zero => false,
            ZeroFact::NotZero => false,
            ZeroFact::Any => true,
        },
    }
}
