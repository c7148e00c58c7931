// What may be known of a variable, and the rules that go with it.
ghost use Rattle.std.specs.Prelude.{◌≡◌, ℤ, true, IfSome};
ghost use Rattle.cond_flow.specs.FactLists.{IsJoinedKind};
ghost use Rattle.cond_flow.specs.Rules.{LawfulRules, Rules, open_outside};

use crate::{Coded, Facts};
use mir_base::{Operand, Rhs, Test};

/// What is known of the value of one variable, with the rules by which it is found out and used. Lists have what is
/// known of each variable, by the numbers of the variables. None of the functions allocates.
pub trait Knowledge: Coded {
    ghost below: { Self → Self → Type 0 };

    ghost holds: { Self → ℤ → Type 0 };

    ghost rules: { Rules Self };

    /// What is known of any number.
    fn top() -> Self
        ensures { result ≡ rules.top };

    /// What is known of 0.
    fn zero() -> Self
        ensures { result ≡ rules.zero };

    /// What is known where two paths meet.
    fn joined(self, other: Self) -> Self
        ensures { result ≡ rules.joined self other };

    /// The kind of what is known where two paths meet, if it is seen by the two kinds; the first number stays.
    fn joined_kind(kind: u8, other: u8) -> Option<u8>
        ensures { IfSome result (IsJoinedKind rules Self.decoded kind other) }
    {
        None
    }

    /// Whether the same is known.
    fn is_same(self, other: Self) -> bool
        ensures same { result ≡ true → self ≡ other }
        ensures differ { self ≡ other → result ≡ true };

    /// What is known of a right side.
    fn of_rhs(known: &Facts<Self>, rhs: Rhs) -> Self
        ensures { result ≡ rules.of_rhs known.now rhs };

    /// Whether a test may have this truth value.
    fn goes(known: &Facts<Self>, test: Test, truth: bool) -> bool
        ensures { result ≡ rules.goes test truth known.now };

    /// Narrows what is known to where a test has this truth value.
    fn narrow(known: &mut Facts<Self>, test: Test, truth: bool)
        ensures { known.new ≡ rules.along test truth known.old };

    /// What an operand becomes.
    fn operand(known: &Facts<Self>, a: Operand) -> Operand
        ensures { result ≡ rules.operand known.now a };

    /// The right side with what is known in the place of its operands, or what it is known to be.
    fn rhs(known: &Facts<Self>, rhs: Rhs) -> Rhs
        ensures { result ≡ rules.rhs known.now rhs };

    ghost laws: { LawfulRules below holds rules };

    ghost is_open: { rules.outside ≡ open_outside };
}
