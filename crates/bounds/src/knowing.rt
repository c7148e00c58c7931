// Facts as what is known of variables.
ghost use Rattle.bounds.specs.Facts.{BelowFact, Bounds};
ghost use Rattle.bounds.specs.BoundRules.{bound_rules};
ghost use Rattle.bounds.specs.BoundRuleLaws.{bound_laws, bound_open};

use crate::coding::joined_kind;
use crate::facts::{Fact, are_same, joined_fact};
use crate::reading::{anything, fact_of_rhs};
use crate::tests_of::{may_go, narrow};
use crate::uses::{bounded_operand, bounded_rhs};
use cond_flow::{Facts, Knowledge};
use mir_base::{Operand, Rhs, Test};

impl Knowledge for Fact {
    ghost below = { BelowFact };

    ghost holds = { Bounds };

    ghost rules = { bound_rules };

    fn top() -> Fact {
        anything()
    }

    fn zero() -> Fact {
        Fact::Fixed(0)
    }

    fn joined(self, other: Fact) -> Fact {
        joined_fact(self, other)
    }

    fn joined_kind(kind: u8, other: u8) -> Option<u8> {
        joined_kind(kind, other)
    }

    fn is_same(self, other: Fact) -> bool {
        are_same(self, other)
    }

    fn of_rhs(known: &Facts<Fact>, rhs: Rhs) -> Fact {
        fact_of_rhs(known, rhs)
    }

    fn goes(known: &Facts<Fact>, test: Test, truth: bool) -> bool {
        may_go(known, test, truth)
    }

    fn narrow(known: &mut Facts<Fact>, test: Test, truth: bool) {
        narrow(known, test, truth)
    }

    fn operand(known: &Facts<Fact>, a: Operand) -> Operand {
        bounded_operand(known, a)
    }

    fn rhs(known: &Facts<Fact>, rhs: Rhs) -> Rhs {
        bounded_rhs(known, rhs)
    }

    ghost laws = { bound_laws };

    ghost is_open = { bound_open };
}
