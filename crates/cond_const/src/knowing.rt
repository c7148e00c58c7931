// Constants as what is known of variables.
ghost use Rattle.std.specs.Prelude.{◌≡◌};
ghost use Rattle.cond_const.specs.States.{BelowKnown, HasValue, is_varying};
ghost use Rattle.cond_const.specs.Folding.{decoded_known, fold_rules, number_of, varying_kind};
ghost use Rattle.cond_const.specs.RewritingLaws.{fold_laws, known_stands, fold_open};

use crate::known::{Known, are_same, folded_rhs, joined_known, known_rhs, may_go, resolved};
use cond_flow::{Coded, Facts, Knowledge};
use mir_base::{Operand, Rhs, Test};

impl Coded for Known {
    ghost decoded = { decoded_known };

    ghost kind_of = { is_varying };

    ghost number_of = { number_of };

    fn kind(self) -> u8 {
        match self {
            Known::Fixed(_) => 0,
            Known::Varying => 1,
        }
    }

    fn number(self) -> i64 {
        match self {
            Known::Fixed(c) => c,
            Known::Varying => 0,
        }
    }

    fn of_code(kind: u8, number: &i64) -> Known {
        if kind == 0 {
            Known::Fixed(*number)
        } else {
            Known::Varying
        }
    }

    fn tells_all(kind: u8) -> bool {
        kind != 0
    }

    ghost stands = { known_stands };
}

impl Knowledge for Known {
    ghost below = { BelowKnown };

    ghost holds = { HasValue };

    ghost rules = { fold_rules };

    fn top() -> Known {
        Known::Varying
    }

    fn zero() -> Known {
        Known::Fixed(0)
    }

    fn joined(self, other: Known) -> Known {
        joined_known(self, other)
    }

    fn joined_kind(kind: u8, other: u8) -> Option<u8> {
        varying_kind(kind, other)
    }

    fn is_same(self, other: Known) -> bool {
        are_same(self, other)
    }

    fn of_rhs(known: &Facts<Known>, rhs: Rhs) -> Known {
        known_rhs(known, rhs)
    }

    fn goes(known: &Facts<Known>, test: Test, truth: bool) -> bool {
        may_go(known, test, truth)
    }

    fn narrow(_known: &mut Facts<Known>, _test: Test, _truth: bool) {}

    fn operand(known: &Facts<Known>, a: Operand) -> Operand {
        resolved(known, a)
    }

    fn rhs(known: &Facts<Known>, rhs: Rhs) -> Rhs {
        folded_rhs(known, rhs)
    }

    ghost laws = { fold_laws };

    ghost is_open = { fold_open };
}

/// The kind of what is known where two paths meet, if it is seen by the two kinds: if one of them says "varying".
fn varying_kind(kind: u8, other: u8) -> Option<u8>
    ensures { result ≡ varying_kind kind other }
{
    if kind == 0 {
        if other == 0 { None } else { Some(1) }
    } else {
        Some(kind)
    }
}
