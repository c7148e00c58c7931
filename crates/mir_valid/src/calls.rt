// The rules of units and calls.
ghost use Rattle.std.specs.Prelude.{◌≡◌, count_by, IfOk};
ghost use Rattle.mir_valid.specs.Rules.{is_receive, same_unit_lines, no_unit_lines, wrong_count_lines, receive_counts};
ghost use Rattle.mir_valid.specs.Refusals.{least, least_over};
ghost use Rattle.mir_valid.specs.NameTables.{table_of, broken_lookups};
ghost use Rattle.mir_valid.specs.Numbered.{unit_numbers};

use crate::Memory;
use crate::forms::is_receive;
use crate::lines::{Least, lesser_if};
use crate::lookups::{Lookup, least_where};
use crate::rules::{Rule, least_broken};
use crate::tables::Table;
use mir_parse::{RawInst, RawUnit};
use std::alloc::Global;

/// The table of the units with their numbers. It fails only with `Memory`.
pub fn unit_numbers<'a>(alloc: Global, units: &'a [RawUnit]) -> Result<Table<'a>, Memory>
    ensures { IfOk result (λ table. table ≡ unit_numbers units.now) }
{
    let mut table = Table::new(alloc);
    for (number, unit) in units.iter().enumerate() {
        let _ = table.add(&unit.name, number)?;
    }
    Ok(table)
}

/// The smallest line of a unit that has the name of an earlier one. It fails only with `Memory`.
pub fn same_unit(alloc: Global, units: &[RawUnit]) -> Result<Least, Memory>
    ensures { IfOk result (λ line. line ≡ least (same_unit_lines units.now)) }
{
    let mut seen = Table::new(alloc);
    let mut best = None;
    for unit in units {
        let is_new = seen.add(&unit.name, 0)?;
        best = lesser_if(!is_new, best, unit.line);
    }
    Ok(best)
}

/// The smallest line of a call that names no unit. It fails only with `Memory`.
pub fn no_such_unit(alloc: Global, units: &[RawUnit]) -> Result<Least, Memory>
    ensures { IfOk result (λ line. line ≡ least_over (no_unit_lines units.now) units.now) }
{
    let numbers = unit_numbers(alloc, units)?;
    let line = least_call(alloc, Lookup::NoUnit, &numbers, units)?;
    Ok(line)
}

/// The smallest line of a call with another number of arguments than the called unit has receives. It fails only with
/// `Memory`.
pub fn wrong_count(alloc: Global, units: &[RawUnit]) -> Result<Least, Memory>
    ensures { IfOk result (λ line. line ≡ least_over (wrong_count_lines units.now) units.now) }
{
    let counts = receive_counts(alloc, units)?;
    let line = least_call(alloc, Lookup::OtherCount, &counts, units)?;
    Ok(line)
}

/// The table of each unit's name with the number of its receives. It fails only with `Memory`.
fn receive_counts<'a>(alloc: Global, units: &'a [RawUnit]) -> Result<Table<'a>, Memory>
    ensures { IfOk result (λ table. table ≡ table_of (receive_counts units.now)) }
{
    let mut table = Table::new(alloc);
    for unit in units {
        let count = count_receives(unit.body.items());
        let _ = table.add(&unit.name, count)?;
    }
    Ok(table)
}

// How many receives a body has.
fn count_receives(body: &[RawInst]) -> usize
    ensures { result ≡ count_by is_receive body.now }
{
    let mut count = 0;
    for inst in body {
        count += usize::from(is_receive(inst));
    }
    count
}

/// The smallest line of a call that breaks this rule. It fails only with `Memory`.
fn least_call(
    alloc: Global,
    lookup: Lookup,
    table: &Table,
    units: &[RawUnit],
) -> Result<Least, Memory>
    ensures { IfOk result (λ line. line ≡ least_over (broken_lookups lookup table.now) units.now) }
{
    let rule = CallRule { lookup, table };
    let line = least_broken(alloc, &rule, units)?;
    Ok(line)
}

/// A rule of calls: what it looks up in the table of the units' numbers or counts.
#[derive(Drop)]
struct CallRule<'t, 'a> {
    lookup: Lookup,
    table: &'t Table<'a>,
}

impl<'t, 'a> Rule for CallRule<'t, 'a> {
    ghost lines = { λ rule unit. broken_lookups rule.lookup rule.table.now unit };

    fn least_in(&self, _alloc: Global, unit: &RawUnit, best: Least) -> Result<Least, Memory> {
        Ok(least_where(self.lookup, self.table, unit.body.items(), best))
    }
}
