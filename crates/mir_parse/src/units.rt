// The parser outside instructions: `step` is called once for each token. In all functions `at` is the line of the
// token, and `line` that of a global line or an instruction that began before it.
ghost use Rattle.std.specs.Prelude.{◌≡◌, [], IfOk, OnOk};
ghost use Rattle.mir_parse.specs.RawParts.{globals_alone};
ghost use Rattle.mir_parse.specs.Reader.{AfterPart, Progresses, ProgressesEach, state_progressed, unit_progressed, global_word, outside, in_global, unit_named, headed, begun, inside, after_end, spot_step, read_step};

use crate::parts::{fresh, part_step};
use crate::so_far::{Part, Progress, ReadSoFar, Reading, Spot};
use crate::{Memory, Raw, RawGlobal, RawUnit};
use mir_base::{Items, Name, Word};
use mir_lex::{Mark, Symbol, Terminal};
use std::alloc::Global;
use std::mem;

/// Changes the state as the token does. It fails only with `Memory`.
pub fn step(alloc: Global, state: &mut ReadSoFar, token: Terminal) -> Result<(), Memory>
    ensures { OnOk result (state.new ≡ read_step state.old token) }
{
    match state {
        ReadSoFar::Outside(whole) => {
            let whole = mem::replace(whole, nothing(alloc));
            put(state, outside(alloc, whole, token.symbol, token.line));
            Ok(())
        }
        ReadSoFar::Global(globals, line, name) => {
            let globals = mem::replace(globals, Items::new(alloc));
            let line = *line;
            let name = mem::replace(name, None);
            let next = in_global(alloc, globals, line, name, token.symbol, token.line)?;
            put(state, next);
            Ok(())
        }
        ReadSoFar::In(reading, spot) => {
            let progress = spot_step(alloc, reading, spot, token.symbol, token.line)?;
            progressed(state, progress, token.line)
        }
        ReadSoFar::Stopped(_) => Ok(()),
    }
}

/// The raw program with no global line and no unit.
pub fn nothing(alloc: Global) -> Raw
    ensures { result ≡ globals_alone [] }
{
    Raw {
        globals: Items::new(alloc),
        units: Items::new(alloc),
    }
}

// Puts a state in the place of another, which is dropped.
fn put(state: &mut ReadSoFar, next: ReadSoFar)
    ensures { state.new ≡ next }
{
    mem::drop(mem::replace(state, next));
}

// The state after a token between two global lines or units, where the name of a unit may stand, or `global` where no
// unit was read yet.
fn outside(alloc: Global, whole: Raw, symbol: Symbol, at: usize) -> ReadSoFar
    ensures { result ≡ outside whole symbol at }
{
    match symbol {
        Symbol::Name(name) => ReadSoFar::In(
            Reading {
                whole,
                unit: RawUnit::empty(alloc, name, at),
            },
            Spot::Named,
        ),
        Symbol::Word(Word::Global) => global_word(whole, at),
        _ => ReadSoFar::Stopped(at),
    }
}

// The state after `global`.
fn global_word(whole: Raw, at: usize) -> ReadSoFar
    ensures { result ≡ global_word whole.globals whole.units at }
{
    match whole.units.items() {
        [] => ReadSoFar::Global(whole.globals, at, None),
        _ => ReadSoFar::Stopped(at),
    }
}

// The state after a token in a global line that began on `line`, after `global` or after its name.
fn in_global(
    alloc: Global,
    globals: Items<RawGlobal>,
    line: usize,
    name: Option<Name>,
    symbol: Symbol,
    at: usize,
) -> Result<ReadSoFar, Memory>
    ensures { IfOk result (λ next. next ≡ in_global globals line name symbol at) }
{
    match (name, symbol) {
        (None, Symbol::Name(name)) => Ok(ReadSoFar::Global(globals, line, Some(name))),
        (Some(name), Symbol::LineEnd) => {
            let globals = globals.with(RawGlobal { name, line })?;
            Ok(ReadSoFar::Outside(Raw {
                globals,
                units: Items::new(alloc),
            }))
        }
        _ => Ok(ReadSoFar::Stopped(at)),
    }
}

// The state in a unit of which a token made this.
fn progressed(state: &mut ReadSoFar, progress: Progress, at: usize) -> Result<(), Memory>
    ensures { OnOk result (state_progressed progress state.old at state.new) }
{
    match progress {
        Progress::Goes => Ok(()),
        Progress::Ends => whole(state),
        Progress::Stops => {
            put(state, ReadSoFar::Stopped(at));
            Ok(())
        }
    }
}

// The unit that is read becomes the last of those that were read whole.
fn whole(state: &mut ReadSoFar) -> Result<(), Memory>
    ensures { OnOk result (state_progressed Progress.Ends state.old 0 state.new) }
{
    match mem::replace(state, ReadSoFar::Stopped(0)) {
        ReadSoFar::In(reading, spot) => {
            mem::drop(spot);
            let whole = reading.whole;
            let units = whole.units.with(reading.unit)?;
            put(
                state,
                ReadSoFar::Outside(Raw {
                    globals: whole.globals,
                    units,
                }),
            );
            Ok(())
        }
        other => {
            put(state, other);
            Ok(())
        }
    }
}

// Changes the unit that is read, and the place in it, as the token does. It fails only with `Memory`.
fn spot_step(
    alloc: Global,
    reading: &mut Reading,
    spot: &mut Spot,
    symbol: Symbol,
    at: usize,
) -> Result<Progress, Memory>
    ensures { Progresses (spot_step reading.old spot.old symbol at) reading.new spot.new at result }
{
    match spot {
        Spot::Named => Ok(unit_named(spot, symbol)),
        Spot::Headed(after_colon) => {
            let after_colon = *after_colon;
            Ok(headed(spot, after_colon, symbol))
        }
        Spot::Begun => Ok(begun(spot, symbol)),
        Spot::Inside(after_colon) => {
            let after_colon = *after_colon;
            Ok(inside(spot, after_colon, symbol, at))
        }
        Spot::Mid(_, part) => {
            let progress = part_step(alloc, part, symbol)?;
            after(reading, spot, progress)
        }
        Spot::AfterEnd => Ok(after_end(symbol)),
    }
}

// A token after the name of a unit: only `:`.
fn unit_named(spot: &mut Spot, symbol: Symbol) -> Progress
    ensures { ProgressesEach (λ reading at. unit_named reading symbol at) spot.new result }
{
    match symbol {
        Symbol::Mark(Mark::Colon) => go_to(spot, Spot::Headed(true)),
        _ => Progress::Stops,
    }
}

// Sets the place in the unit, which goes on there.
fn go_to(spot: &mut Spot, next: Spot) -> Progress
    ensures progress { result ≡ Progress.Goes }
    ensures spot { spot.new ≡ next }
{
    mem::drop(mem::replace(spot, next));
    Progress::Goes
}

// A token after the name and the colon of a unit: `begin`, or one line end before it.
fn headed(spot: &mut Spot, after_colon: bool, symbol: Symbol) -> Progress
    ensures { ProgressesEach (λ reading at. headed reading after_colon symbol at) spot.new result }
{
    match (symbol, after_colon) {
        (Symbol::Word(Word::Begin), _) => go_to(spot, Spot::Begun),
        (Symbol::LineEnd, true) => go_to(spot, Spot::Headed(false)),
        _ => Progress::Stops,
    }
}

// A token after `begin`: only a line end.
fn begun(spot: &mut Spot, symbol: Symbol) -> Progress
    ensures { ProgressesEach (λ reading at. begun reading symbol at) spot.new result }
{
    match symbol {
        Symbol::LineEnd => go_to(spot, Spot::Inside(false)),
        _ => Progress::Stops,
    }
}

// A token between two instructions: `end`, a line end after the colon of a label, or the first token of an instruction.
fn inside(spot: &mut Spot, after_colon: bool, symbol: Symbol, at: usize) -> Progress
    ensures { (reading : Reading) → unit_progressed result reading spot.new at
        ≡ inside reading after_colon symbol at }
{
    match symbol {
        Symbol::Word(Word::End) => go_to(spot, Spot::AfterEnd),
        Symbol::LineEnd => {
            if after_colon {
                go_to(spot, Spot::Inside(false))
            } else {
                Progress::Stops
            }
        }
        symbol => match fresh(symbol) {
            Some(part) => go_to(spot, Spot::Mid(at, part)),
            None => Progress::Stops,
        },
    }
}

// What the progress of the instruction makes of the unit: one that is whole, or a label, is added to it.
fn after(reading: &mut Reading, spot: &mut Spot, progress: Progress) -> Result<Progress, Memory>
    ensures { AfterPart progress reading.old spot.old reading.new spot.new result }
{
    match progress {
        Progress::Goes => Ok(Progress::Goes),
        Progress::Ends => add(reading, spot),
        Progress::Stops => Ok(Progress::Stops),
    }
}

// Adds the instruction or the label that was read to the unit.
fn add(reading: &mut Reading, spot: &mut Spot) -> Result<Progress, Memory>
    ensures { AfterPart Progress.Ends reading.old spot.old reading.new spot.new result }
{
    match mem::replace(spot, Spot::Inside(false)) {
        Spot::Mid(line, Part::Full(form)) => {
            reading.unit.push_inst(line, form)?;
            Ok(Progress::Goes)
        }
        Spot::Mid(line, Part::Named(name)) => {
            reading.unit.push_label(line, name)?;
            Ok(go_to(spot, Spot::Inside(true)))
        }
        other => {
            mem::drop(other);
            Ok(Progress::Stops)
        }
    }
}

// A token after `end`: only a line end, with which the unit is whole.
fn after_end(symbol: Symbol) -> Progress
    ensures { ProgressesEach (λ reading at. after_end reading symbol at) Spot.AfterEnd result }
{
    match symbol {
        Symbol::LineEnd => Progress::Ends,
        _ => Progress::Stops,
    }
}
