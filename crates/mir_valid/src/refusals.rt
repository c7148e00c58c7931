// The first refusal of a raw program, kind by kind in the order of `ValidFault`.
ghost use Rattle.std.specs.Prelude.{◌≡◌, drop, IfOk};
ghost use Rattle.mir_valid.specs.Refusals.{refusals, first_of};

use crate::calls::{no_such_unit, same_unit, wrong_count};
use crate::globals::{BadTrap, global_receive, same_global, too_many_globals};
use crate::labels::{NoLabel, SameLabel};
use crate::receives::{LateReceive, SameReceive, TooManyInsts, TooManyReceives};
use crate::rules::least_broken;
use crate::{Memory, ValidFault};
use mir_base::MOST_UNITS;
use mir_parse::{RawGlobal, RawUnit};
use std::alloc::Global;

/// The first kind of refusal whose condition holds, with its smallest line, and `None` exactly where no condition
/// holds. It fails only with `Memory`.
pub fn refusal(
    alloc: Global,
    globals: &[RawGlobal],
    units: &[RawUnit],
) -> Result<Option<ValidFault>, Memory>
    ensures { IfOk result (λ found. found ≡ first_of (refusals globals.now units.now)) }
{
    if units.is_empty() {
        return Ok(Some(ValidFault::NoUnit));
    }
    if units.len() > MOST_UNITS {
        return Ok(Some(ValidFault::TooManyUnits));
    }
    if let Some(line) = same_unit(alloc, units)? {
        return Ok(Some(ValidFault::SameUnit(line)));
    }
    receive_refusal(alloc, globals, units)
}

/// The first refusal among the kinds from `TooManyInsts` on.
fn receive_refusal(
    alloc: Global,
    globals: &[RawGlobal],
    units: &[RawUnit],
) -> Result<Option<ValidFault>, Memory>
    ensures { IfOk result (λ found. found ≡ first_of (drop 3 (refusals globals.now units.now))) }
{
    if let Some(line) = least_broken(alloc, &TooManyInsts, units)? {
        return Ok(Some(ValidFault::TooManyInsts(line)));
    }
    if let Some(line) = least_broken(alloc, &LateReceive, units)? {
        return Ok(Some(ValidFault::LateReceive(line)));
    }
    if let Some(line) = least_broken(alloc, &SameReceive, units)? {
        return Ok(Some(ValidFault::SameReceive(line)));
    }
    if let Some(line) = least_broken(alloc, &TooManyReceives, units)? {
        return Ok(Some(ValidFault::TooManyReceives(line)));
    }
    name_refusal(alloc, globals, units)
}

/// The first refusal among the kinds from `SameLabel` on.
fn name_refusal(
    alloc: Global,
    globals: &[RawGlobal],
    units: &[RawUnit],
) -> Result<Option<ValidFault>, Memory>
    ensures { IfOk result (λ found. found ≡ first_of (drop 7 (refusals globals.now units.now))) }
{
    if let Some(line) = least_broken(alloc, &SameLabel, units)? {
        return Ok(Some(ValidFault::SameLabel(line)));
    }
    if let Some(line) = least_broken(alloc, &NoLabel, units)? {
        return Ok(Some(ValidFault::NoLabel(line)));
    }
    if let Some(line) = no_such_unit(alloc, units)? {
        return Ok(Some(ValidFault::NoSuchUnit(line)));
    }
    if let Some(line) = wrong_count(alloc, units)? {
        return Ok(Some(ValidFault::WrongCount(line)));
    }
    global_refusal(alloc, globals, units)
}

/// The first refusal among the kinds from `SameGlobal` on.
fn global_refusal(
    alloc: Global,
    globals: &[RawGlobal],
    units: &[RawUnit],
) -> Result<Option<ValidFault>, Memory>
    ensures { IfOk result (λ found. found ≡ first_of (drop 11 (refusals globals.now units.now))) }
{
    if let Some(line) = same_global(alloc, globals)? {
        return Ok(Some(ValidFault::SameGlobal(line)));
    }
    if let Some(line) = too_many_globals(globals) {
        return Ok(Some(ValidFault::TooManyGlobals(line)));
    }
    if let Some(line) = global_receive(alloc, globals, units)? {
        return Ok(Some(ValidFault::GlobalReceive(line)));
    }
    if let Some(line) = least_broken(alloc, &BadTrap, units)? {
        return Ok(Some(ValidFault::BadTrap(line)));
    }
    Ok(None)
}
