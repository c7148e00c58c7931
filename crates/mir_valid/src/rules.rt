// The rules that each unit must keep.
ghost use Rattle.std.specs.Prelude.{◌≡◌, fold, IfOk};
ghost use Rattle.mir_valid.specs.Refusals.{lesser, least_over};

use crate::Memory;
use crate::lines::Least;
use mir_parse::RawUnit;
use std::alloc::Global;

/// A rule that each unit must keep.
pub trait Rule {
    ghost use Rattle.std.specs.Prelude.{List, ℕ};
    ghost use Rattle.mir_parse.specs.RawUnit.{RawUnitShape};

    // The lines of a unit at which the rule is broken.
    ghost lines: { Self → RawUnitShape → List ℕ };

    /// The lesser of `best` and the smallest line at which this unit breaks the rule. It fails only with `Memory`.
    fn least_in(&self, alloc: Global, unit: &RawUnit, best: Least) -> Result<Least, Memory>
        ensures { IfOk result (λ line. line ≡ fold lesser best (lines self.now unit.now)) };
}

/// The smallest line at which a unit breaks the rule, and `None` exactly where each keeps it. It fails only with
/// `Memory`.
pub fn least_broken<R: Rule>(alloc: Global, rule: &R, units: &[RawUnit]) -> Result<Least, Memory>
    ensures { IfOk result (λ line. line ≡ least_over (R.lines rule.now) units.now) }
{
    let mut best = None;
    for unit in units {
        best = rule.least_in(alloc, unit, best)?;
    }
    Ok(best)
}
