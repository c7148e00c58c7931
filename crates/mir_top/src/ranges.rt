// The text of where the temporaries of code motion are held.
ghost use Rattle.std.specs.Prelude.{◌≡◌, ◌+◌, ◌<◌, [], ◌++◌, All, codes, decimal, length, slice_get, slice_index_or, IfOk, OnOk};
ghost use Rattle.mir_base.specs.Appending.{AppendsOnOk};
ghost use Rattle.div_move.specs.MustCome.{MustComeTo};
ghost use Rattle.mir_base.specs.ExpressionVars.{rhs_of};
ghost use Rattle.live_range.specs.Counts.{AreCounts, rows_with};
ghost use Rattle.motion_rewrite.specs.Placements.{IsAnticipatable};
ghost use Rattle.mir_opt.specs.Links.{IsDivisionLinked, IsMoveLinked};
ghost use Rattle.mir_top.specs.RangeTexts.{AppendsRange, AppendsRanges, UnitHoldsLeast, IsLazilyPlaced, ShowsRanges, line_at, lines_below, range_line, temporary_at};

use bit_rows::Rows;
use div_move::MustReach;
use down_safe::{DownRule, EveryPath};
use edge_split::split_splits;
use flow_graph::Edges;
use itoa::Buffer;
use live_range::{Held, RangeCounts, count_ranges, holds_least, ranges};
use mir_base::{Expr, Memory, Name, Rhs};
use mir_opt::{MoveTrail, MoveUnit};
use mir_print::put_side;
use std::alloc::{AllocError, Global};

/// For each unit of a move trail a line with its name, and for each of its expressions that has an insertion, in order
/// of the table, a line with its temporary and the numbers of its insertions, of its replaced uses and of the edges on
/// which the temporary is held. It fails only with `Memory`.
pub(crate) fn text_of_ranges(alloc: Global, trail: &MoveTrail) -> Result<Vec<u8>, Memory>
    requires { IsMoveLinked trail.now }
    ensures { IfOk result (λ text. ShowsRanges trail.now.units text.items) }
{
    let mut text = Vec::new(alloc);
    put_units(alloc, &mut text, trail.units.items())?;
    Ok(text)
}

/// Appends the text of each of these units in turn.
fn put_units(alloc: Global, text: &mut Vec<u8>, units: &[MoveUnit]) -> Result<(), Memory>
    requires { All (IsLazilyPlaced IsAnticipatable) units.now }
    ensures { OnOk result (AppendsRanges units.now text.old text.new) }
{
    for unit in units {
        put_unit(alloc, text, unit)?;
    }
    Ok(())
}

/// Appends the text of a unit.
fn put_unit(alloc: Global, text: &mut Vec<u8>, unit: &MoveUnit) -> Result<(), Memory>
    requires { IsLazilyPlaced IsAnticipatable unit.now }
    ensures { OnOk result (AppendsRange unit.now text.old text.new) }
{
    split_splits(&unit.cleaned, &unit.split);
    let edges = Edges::of(alloc, &unit.split)?;
    let held = ranges(
        alloc,
        &EveryPath,
        &unit.split,
        &edges,
        &unit.table,
        &unit.placement,
    )?;
    let counts = count_ranges(alloc, unit.table.len(), &unit.placement, &held)?;
    put_title(text, unit.split.name())?;
    put_lines(text, unit, &held, &counts)
}

/// Appends the line with the name of a unit.
fn put_title(text: &mut Vec<u8>, name: &Name) -> Result<(), Memory>
    ensures { AppendsOnOk result text.old text.new (codes "unit " ++ name.now ++ codes "\n") }
{
    text.extend_from_slice(b"unit ")?;
    text.extend_from_slice(name.bytes())?;
    text.extend_from_slice(b"\n")
}

/// Appends the lines of a unit's expressions, by their counts.
fn put_lines(
    text: &mut Vec<u8>,
    unit: &MoveUnit,
    held: &Held,
    counts: &RangeCounts,
) -> Result<(), Memory>
    requires inserted { AreCounts (length unit.now.table) unit.now.placement.insert
        counts.now.inserted }
    requires replaced { AreCounts (length unit.now.table) unit.now.placement.replace
        counts.now.replaced }
    requires held { AreCounts (length unit.now.table) held.now.edges counts.now.held }
    ensures { AppendsOnOk result text.old text.new
        (lines_below unit.now held.now.edges (length unit.now.table)) }
{
    let mut temporary = unit.split.vars().len();
    for number in 0..unit.table.len() {
        temporary = put_number(text, unit, held, counts, number, temporary)?;
    }
    Ok(())
}

/// Appends the line of the expression of this number, where it is inserted, and answers the number of the temporary of
/// the next one; `temporary` is that of this one.
fn put_number(
    text: &mut Vec<u8>,
    unit: &MoveUnit,
    held: &Held,
    counts: &RangeCounts,
    number: usize,
    temporary: usize,
) -> Result<usize, Memory>
    requires number { number < length unit.now.table }
    requires inserted { AreCounts (length unit.now.table) unit.now.placement.insert
        counts.now.inserted }
    requires replaced { AreCounts (length unit.now.table) unit.now.placement.replace
        counts.now.replaced }
    requires held { AreCounts (length unit.now.table) held.now.edges counts.now.held }
    requires temporary { temporary ≡ temporary_at unit.now number }
    ensures text { AppendsOnOk result text.old text.new
        (line_at unit.now held.now.edges number (slice_get unit.now.table number)) }
    ensures next { IfOk result (λ next. next ≡ temporary_at unit.now (number + 1)) }
{
    let bits = unit.table.len();
    let inserted = count_of(
        bits,
        &unit.placement.insert,
        counts.inserted.items(),
        number,
    );
    if inserted == 0 {
        return Ok(temporary);
    }
    let replaced = count_of(
        bits,
        &unit.placement.replace,
        counts.replaced.items(),
        number,
    );
    let held = count_of(bits, &held.edges, counts.held.items(), number);
    let next = next_number(temporary)?;
    put_line(
        text,
        name_of(unit.moved.vars(), temporary),
        unit.split.vars(),
        unit.table.get(number),
        inserted,
        replaced,
        held,
    )?;
    Ok(next)
}

/// Appends a line with a name and an expression over these variables, and three numbers.
fn put_line(
    text: &mut Vec<u8>,
    name: &[u8],
    vars: &[Name],
    expr: &Expr,
    inserted: usize,
    replaced: usize,
    held: usize,
) -> Result<(), Memory>
    ensures { AppendsOnOk result text.old text.new
        (range_line name.now vars.now expr.now inserted replaced held) }
{
    text.extend_from_slice(name)?;
    text.extend_from_slice(b" <- ")?;
    put_side(text, vars, &rhs_of(expr))?;
    put_count(text, b" inserted ", inserted)?;
    put_count(text, b" replaced ", replaced)?;
    put_count(text, b" held ", held)?;
    text.extend_from_slice(b"\n")
}

/// How many of the rows have the bit of this number, by the counts of all.
fn count_of(bits: usize, rows: &Rows, counts: &[usize], number: usize) -> usize
    requires counts { AreCounts bits rows.now counts.now }
    requires number { number < bits }
    ensures { result ≡ rows_with rows.now number }
{
    let _ = rows;
    match counts.get(number) {
        Some(count) => *count,
        None => 0,
    }
}

/// The number after this one. Where that passes the greatest `usize`, it fails with `Memory`.
fn next_number(number: usize) -> Result<usize, Memory>
    ensures { IfOk result (λ next. next ≡ number + 1) }
{
    number.checked_add(1).ok_or(AllocError)
}

/// The name of the variable of this number, and nothing where there is none.
fn name_of(vars: &[Name], number: usize) -> &[u8]
    ensures { result.now ≡ slice_index_or vars.now number [] }
{
    match vars.get(number) {
        Some(name) => name.bytes(),
        None => &[],
    }
}

/// The right side that is the expression.
fn rhs_of(expr: &Expr) -> Rhs
    ensures { result ≡ rhs_of expr.now }
{
    match expr {
        Expr::Un(op, a) => Rhs::Unary(*op, *a),
        Expr::Bin(op, a, b) => Rhs::Binary(*op, *a, *b),
    }
}

/// Appends the number behind a text.
fn put_count(text: &mut Vec<u8>, what: &[u8], count: usize) -> Result<(), Memory>
    ensures { AppendsOnOk result text.old text.new (what.now ++ decimal count) }
{
    let mut buffer = Buffer::new();
    text.extend_from_slice(what)?;
    text.extend_from_slice(buffer.format(count).as_bytes())
}

/// Has no effect; carries the theorem that the placements of a trail of code motion hold their temporaries least.
pub(crate) fn moves_hold_least(trail: &MoveTrail)
    requires { IsMoveLinked trail.now }
    ensures { All (UnitHoldsLeast IsAnticipatable) trail.now.units }
{
    hold_each(&EveryPath, trail.units.items());
}

/// Has no effect; carries the theorem that the placements of a trail of the motion of divisions hold their temporaries
/// least, by the rule of what a run must come to.
pub(crate) fn divisions_hold_least(trail: &MoveTrail)
    requires { IsDivisionLinked trail.now }
    ensures { All (UnitHoldsLeast MustComeTo) trail.now.units }
{
    hold_each(&MustReach, trail.units.items());
}

/// Has no effect; carries the same of each of these units, by a rule.
fn hold_each<R: DownRule>(rule: &R, units: &[MoveUnit])
    requires { All (IsLazilyPlaced (R.is_down rule.now)) units.now }
    ensures { All (UnitHoldsLeast (R.is_down rule.now)) units.now }
{
    for unit in units {
        hold_unit(rule, unit);
    }
}

/// Has no effect; carries the same of a unit.
fn hold_unit<R: DownRule>(rule: &R, unit: &MoveUnit)
    requires { IsLazilyPlaced (R.is_down rule.now) unit.now }
    ensures { UnitHoldsLeast (R.is_down rule.now) unit.now }
{
    split_splits(&unit.cleaned, &unit.split);
    holds_least(rule, &unit.split, &unit.table, &unit.placement);
}
