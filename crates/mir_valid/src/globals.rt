// The rules of globals and of the numbers of traps.
ghost use Rattle.std.specs.Prelude.{◌≡◌, fold, map, false, IfOk};
ghost use Rattle.std.specs.Option.{option_map_or};
ghost use Rattle.mir_valid.specs.Rules.{same_global_lines, too_many_globals_lines, global_receive_lines, bad_trap_lines, is_bad_number, is_bad_trap, lines_where};
ghost use Rattle.mir_valid.specs.Refusals.{least, least_over, lesser};
ghost use Rattle.mir_valid.specs.NameTables.{global_lines, has_received, table_of};

use crate::Memory;
use crate::forms::{received_by, trapped_with};
use crate::lines::{Least, lesser, lesser_if};
use crate::rules::{Rule, least_broken};
use crate::tables::Table;
use mir_base::MOST_GLOBALS;
use mir_parse::{RawForm, RawGlobal, RawUnit};
use std::alloc::Global;

/// The smallest line of a global line that names an earlier global. It fails only with `Memory`.
pub fn same_global(alloc: Global, globals: &[RawGlobal]) -> Result<Least, Memory>
    ensures { IfOk result (λ line. line ≡ least (same_global_lines globals.now)) }
{
    let mut seen = Table::new(alloc);
    let mut best = None;
    for global in globals {
        let is_new = seen.add(&global.name, 0)?;
        best = lesser_if(!is_new, best, global.line);
    }
    Ok(best)
}

/// The line of the global line that is one too many. It does not allocate.
pub fn too_many_globals(globals: &[RawGlobal]) -> Least
    ensures { result ≡ least (too_many_globals_lines globals.now) }
{
    match globals.get(MOST_GLOBALS) {
        Some(global) => Some(global.line),
        None => None,
    }
}

/// The smallest line of a receive that names a global. It fails only with `Memory`.
pub fn global_receive(
    alloc: Global,
    globals: &[RawGlobal],
    units: &[RawUnit],
) -> Result<Least, Memory>
    ensures { IfOk result (λ line.
        line ≡ least_over (global_receive_lines globals.now) units.now) }
{
    let table = global_lines(alloc, globals)?;
    let rule = GlobalReceive { table: &table };
    let line = least_broken(alloc, &rule, units)?;
    Ok(line)
}

// The table of the globals with their lines. It fails only with `Memory`.
fn global_lines<'a>(alloc: Global, globals: &'a [RawGlobal]) -> Result<Table<'a>, Memory>
    ensures { IfOk result (λ table. table ≡ table_of (global_lines globals.now)) }
{
    let mut table = Table::new(alloc);
    for global in globals {
        let _ = table.add(&global.name, global.line)?;
    }
    Ok(table)
}

/// The rule that no receive names a global of the table.
#[derive(Drop)]
struct GlobalReceive<'t, 'a> {
    table: &'t Table<'a>,
}

impl<'t, 'a> Rule for GlobalReceive<'t, 'a> {
    ghost lines = { λ rule unit. lines_where (has_received rule.table.now) unit.body };

    fn least_in(&self, _alloc: Global, unit: &RawUnit, best: Least) -> Result<Least, Memory> {
        let mut best = best;
        for inst in unit.body.items() {
            best = lesser_if(has_received(self.table, &inst.form), best, inst.line);
        }
        Ok(best)
    }
}

// Whether the instruction receives a variable of the table.
fn has_received(table: &Table, form: &RawForm) -> bool
    ensures { result ≡ has_received table.now form.now }
{
    match received_by(form) {
        Some(name) => table.get(name).is_some(),
        None => false,
    }
}

/// The rule that the number of each trap is one from 0 to 255.
pub struct BadTrap;

impl Rule for BadTrap {
    ghost lines = { λ _ unit. bad_trap_lines unit };

    fn least_in(&self, _alloc: Global, unit: &RawUnit, best: Least) -> Result<Least, Memory> {
        let mut best = best;
        for inst in unit.body.items() {
            best = lesser_if(is_bad_trap(&inst.form), best, inst.line);
        }
        Ok(best)
    }
}

// Whether the instruction traps with a number that is none of a trap.
fn is_bad_trap(form: &RawForm) -> bool
    ensures { result ≡ is_bad_trap form.now }
{
    match trapped_with(form) {
        Some(number) => is_bad_number(number),
        None => false,
    }
}

/// Whether the number is below 0 or above 255. It does not allocate.
pub fn is_bad_number(number: i64) -> bool
    ensures { result ≡ is_bad_number number }
{
    number < 0 || number > 255
}
