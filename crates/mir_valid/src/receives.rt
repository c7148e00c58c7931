// The rules of sizes and receives.
ghost use Rattle.std.specs.Prelude.{◌≡◌, ◌||◌, ◌&&◌, nat_eq, map, IfOk, OnOk};
ghost use Rattle.mir_base.specs.Limits.{most_receives};
ghost use Rattle.mir_valid.specs.Rules.{too_many_insts_lines, late_receive_lines, same_receive_lines, too_many_receives_lines};
ghost use Rattle.mir_valid.specs.Refusals.{least};
ghost use Rattle.mir_valid.specs.NameTables.{has_received, with_received, is_at_most};

use crate::Memory;
use crate::forms::{is_receive, received_by};
use crate::lines::{Least, lesser, lesser_if};
use crate::rules::Rule;
use crate::tables::Table;
use mir_base::{MOST_INSTS, MOST_RECEIVES};
use mir_parse::{RawForm, RawLabel, RawUnit};
use std::alloc::Global;

/// The rule that a unit has at most 16,384 instructions.
pub struct TooManyInsts;

impl Rule for TooManyInsts {
    ghost lines = { λ _ unit. too_many_insts_lines unit };

    fn least_in(&self, _alloc: Global, unit: &RawUnit, best: Least) -> Result<Least, Memory> {
        match unit.body.items().get(MOST_INSTS) {
            Some(inst) => Ok(lesser(best, inst.line)),
            None => Ok(best),
        }
    }
}

/// The rule that receives stand first in a unit, and that no label stands before one.
pub struct LateReceive;

impl Rule for LateReceive {
    ghost lines = { λ _ unit. late_receive_lines unit };

    fn least_in(&self, _alloc: Global, unit: &RawUnit, best: Least) -> Result<Least, Memory> {
        let first_label = first_place(unit.labels.items());
        let mut best = best;
        let mut others = false;
        for (place, inst) in unit.body.items().iter().enumerate() {
            let receives = is_receive(inst);
            best = lesser_if(
                is_late(receives, others, first_label, place),
                best,
                inst.line,
            );
            others |= !receives;
        }
        Ok(best)
    }
}

/// The least place of a label, and `None` where there is no label.
fn first_place(labels: &[RawLabel]) -> Option<usize>
    ensures { result ≡ least (map (λ label. label.place) labels.now) }
{
    let mut first = None;
    for label in labels {
        first = lesser(first, label.place);
    }
    first
}

/// Whether an instruction is a late receive: whether it receives, and others or a label stand before it.
fn is_late(receives: bool, others: bool, first_label: Option<usize>, place: usize) -> bool
    ensures { result ≡ (receives && (others || is_at_most first_label place)) }
{
    receives && (others || is_at_most(first_label, place))
}

/// Whether there is a first place, and it is at most this one.
fn is_at_most(first: Option<usize>, place: usize) -> bool
    ensures { result ≡ is_at_most first place }
{
    match first {
        Some(least) => least <= place,
        None => false,
    }
}

/// The rule that the receives of a unit name distinct variables.
pub struct SameReceive;

impl Rule for SameReceive {
    ghost lines = { λ _ unit. same_receive_lines unit };

    fn least_in(&self, alloc: Global, unit: &RawUnit, best: Least) -> Result<Least, Memory> {
        let mut seen = Table::new(alloc);
        let mut best = best;
        for inst in unit.body.items() {
            let receives_again = sees_again(&mut seen, &inst.form)?;
            best = lesser_if(receives_again, best, inst.line);
        }
        Ok(best)
    }
}

/// Adds the variable of a receive to those seen, and says whether it was among them: never where the instruction is no
/// receive. It fails only with `Memory`.
fn sees_again<'a>(seen: &mut Table<'a>, form: &'a RawForm) -> Result<bool, Memory>
    ensures again { IfOk result (λ again. again ≡ has_received seen.old form.now) }
    ensures seen { OnOk result (seen.new ≡ with_received seen.old form.now) }
{
    match received_by(form) {
        Some(name) => {
            let is_new = seen.add(name, 0)?;
            Ok(!is_new)
        }
        None => Ok(false),
    }
}

/// The rule that a unit has at most 16 receives.
pub struct TooManyReceives;

impl Rule for TooManyReceives {
    ghost lines = { λ _ unit. too_many_receives_lines unit };

    fn least_in(&self, _alloc: Global, unit: &RawUnit, best: Least) -> Result<Least, Memory> {
        let mut count = 0;
        let mut best = best;
        for inst in unit.body.items() {
            let receives = is_receive(inst);
            best = lesser_if(is_beyond(receives, count), best, inst.line);
            count += usize::from(receives);
        }
        Ok(best)
    }
}

/// Whether an instruction is a receive too many: whether it receives, and as many as a unit has stand before it.
fn is_beyond(receives: bool, count: usize) -> bool
    ensures { result ≡ (receives && nat_eq count most_receives) }
{
    receives && count == MOST_RECEIVES
}
