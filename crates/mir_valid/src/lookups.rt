// The rules by which a name in an instruction is looked up in a table.
ghost use Rattle.std.specs.Prelude.{◌≡◌, false, not, nat_eq, fold};
ghost use Rattle.std.specs.Option.{option_map_or};
ghost use Rattle.mir_valid.specs.Rules.{lines_where, differs_from};
ghost use Rattle.mir_valid.specs.Refusals.{lesser};
ghost use Rattle.mir_valid.specs.NameTables.{breaks, misses_place, misses_number};

use crate::forms::{called_by, jumped_to};
use crate::lines::{Least, lesser_if};
use crate::tables::Table;
use mir_parse::{RawForm, RawInst};

/// What breaks a rule on a name in an instruction.
#[derive(Clone, Copy)]
pub enum Lookup {
    /// The instruction jumps to a label that the table does not have.
    NoLabel,
    /// The instruction calls a unit that the table does not have.
    NoUnit,
    /// The instruction calls a unit of the table with another number of arguments than its count.
    OtherCount,
}

/// The lesser of `best` and the smallest line of an instruction that breaks the rule. It does not allocate.
pub fn least_where(lookup: Lookup, table: &Table, body: &[RawInst], best: Least) -> Least
    ensures { result ≡ fold lesser best (lines_where (breaks lookup table.now) body.now) }
{
    let mut best = best;
    for inst in body {
        best = lesser_if(breaks(lookup, table, &inst.form), best, inst.line);
    }
    best
}

// Whether the instruction breaks the rule.
fn breaks(lookup: Lookup, table: &Table, form: &RawForm) -> bool
    ensures { result ≡ breaks lookup table.now form.now }
{
    match lookup {
        Lookup::NoLabel => misses_label(table, form),
        Lookup::NoUnit => misses_unit(table, form),
        Lookup::OtherCount => differs_from(table, form),
    }
}

// Whether the instruction jumps to a label that the table does not have.
fn misses_label(labels: &Table, form: &RawForm) -> bool
    ensures { result ≡ misses_place labels.now form.now }
{
    match jumped_to(form) {
        Some(label) => labels.get(label).is_none(),
        None => false,
    }
}

// Whether the instruction calls a unit that the table does not have.
fn misses_unit(units: &Table, form: &RawForm) -> bool
    ensures { result ≡ misses_number units.now form.now }
{
    match called_by(form) {
        Some((unit, _)) => units.get(unit).is_none(),
        None => false,
    }
}

// Whether the instruction calls a unit of the table with another number of arguments.
fn differs_from(counts: &Table, form: &RawForm) -> bool
    ensures { result ≡ differs_from counts.now form.now }
{
    match called_by(form) {
        Some((unit, arguments)) => is_other_count(counts.get(unit), arguments),
        None => false,
    }
}

// Whether there is a count, and it is not this one.
fn is_other_count(count: Option<usize>, arguments: usize) -> bool
    ensures { result ≡ option_map_or (λ count. not (nat_eq count arguments)) count false }
{
    match count {
        Some(count) => count != arguments,
        None => false,
    }
}
