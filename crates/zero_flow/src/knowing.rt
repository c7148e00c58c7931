// Facts of 0 as what is known of variables.
ghost use Rattle.zero_flow.specs.ZeroFacts.{BelowZeroFact, ZeroFactHolds, decoded_zero_fact, no_number, zero_fact_kind};
ghost use Rattle.zero_flow.specs.ZeroRules.{zero_rules};
ghost use Rattle.zero_flow.specs.FactLaws.{zero_fact_stands};
ghost use Rattle.zero_flow.specs.ZeroRuleLaws.{zero_laws, zero_open};

use crate::facts::{ZeroFact, are_same, joined_zero_fact};
use crate::reading::zero_of_rhs;
use crate::tests_of::{may_go, narrow};
use cond_flow::{Coded, Facts, Knowledge};
use mir_base::{Operand, Rhs, Test};

impl Coded for ZeroFact {
    ghost decoded = { decoded_zero_fact };

    ghost kind_of = { zero_fact_kind };

    ghost number_of = { no_number };

    fn kind(self) -> u8 {
        match self {
            ZeroFact::Never => 0,
            ZeroFact::Zero => 1,
            ZeroFact::NotZero => 2,
            ZeroFact::Any => 3,
        }
    }

    fn number(self) -> i64 {
        0
    }

    fn of_code(kind: u8, _number: &i64) -> ZeroFact {
        if kind == 0 {
            ZeroFact::Never
        } else if kind == 1 {
            ZeroFact::Zero
        } else if kind == 2 {
            ZeroFact::NotZero
        } else {
            ZeroFact::Any
        }
    }

    ghost stands = { zero_fact_stands };
}

impl Knowledge for ZeroFact {
    ghost below = { BelowZeroFact };

    ghost holds = { ZeroFactHolds };

    ghost rules = { zero_rules };

    fn top() -> ZeroFact {
        ZeroFact::Any
    }

    fn zero() -> ZeroFact {
        ZeroFact::Zero
    }

    fn joined(self, other: ZeroFact) -> ZeroFact {
        joined_zero_fact(self, other)
    }

    fn is_same(self, other: ZeroFact) -> bool {
        are_same(self, other)
    }

    fn of_rhs(known: &Facts<ZeroFact>, rhs: Rhs) -> ZeroFact {
        zero_of_rhs(known, rhs)
    }

    fn goes(known: &Facts<ZeroFact>, test: Test, truth: bool) -> bool {
        may_go(known, test, truth)
    }

    fn narrow(known: &mut Facts<ZeroFact>, test: Test, truth: bool) {
        narrow(known, test, truth)
    }

    fn operand(_known: &Facts<ZeroFact>, a: Operand) -> Operand {
        a
    }

    fn rhs(_known: &Facts<ZeroFact>, rhs: Rhs) -> Rhs {
        rhs
    }

    ghost laws = { zero_laws };

    ghost is_open = { zero_open };
}
