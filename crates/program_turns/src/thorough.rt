// Turns until nothing changes.
ghost use Rattle.std.specs.Prelude.{◌≡◌, IfOk, MatchOption};
ghost use Rattle.program_pass.specs.PassPrograms.{IsOnly, KeepsRuns, Rewrites};
ghost use Rattle.pass_chain.specs.Passes.{IsChained};
ghost use Rattle.program_turns.specs.Turns.{ChangesBy, IsThorough, IsTurn, TurnsMake, second_half, turn};

use mir_base::{Memory, Program};
use pass_chain::{Pass, chain_program};
use std::alloc::Global;
use std::mem;
use unit_equal::same_program;

/// The first passes of a turn, in order.
const FIRST_HALF: [Pass; 4] = [Pass::Tails, Pass::Join, Pass::Arguments, Pass::Optimise];

/// The passes after them, up to the last.
const SECOND_HALF: [Pass; 6] = [
    Pass::Terms,
    Pass::Demanded,
    Pass::Known,
    Pass::Extensions,
    Pass::Unread,
    Pass::Called,
];

/// The most turns that `thorough_program` makes.
const MOST_TURNS: usize = 16;

/// What a turn made: the program after the passes of `FIRST_HALF`, and after those of `SECOND_HALF` on it.
#[derive(Drop)]
struct Turn {
    half: Program,
    whole: Program,
}

/// The program after turns until one changes nothing, at most `MOST_TURNS` of them: each is the chain of the passes of
/// `FIRST_HALF` and `SECOND_HALF` on what the one before made. It is the same, evaluates no more operators, and never
/// has more frames. It fails only with `Memory`.
pub fn thorough_program(alloc: Global, program: &Program) -> Result<Program, Memory>
    ensures thorough { IfOk result (IsThorough program.now) }
    ensures only { IfOk result (IsOnly (IsThorough program.now)) }
    ensures keeps { IfOk result (KeepsRuns program.now) }
{
    let target = turns_of(alloc, program)?;
    Ok(target)
}

/// The same, said in one: the first turn and those behind it.
fn turns_of(alloc: Global, program: &Program) -> Result<Program, Memory>
    ensures { IfOk result (Rewrites IsThorough program.now) }
{
    let first = turn_of(alloc, program)?;
    if same_program(program, &first.whole) {
        let Turn { whole, .. } = first;
        return Ok(whole);
    }
    let target = turns_behind(alloc, first)?;
    Ok(target)
}

/// The program after the turns behind the first.
fn turns_behind(alloc: Global, first: Turn) -> Result<Program, Memory>
    requires { Rewrites (IsChained second_half) first.half first.whole }
    ensures { IfOk result (Rewrites (TurnsMake 15) first.whole) }
{
    let mut last = first;
    for made in 1..MOST_TURNS {
        match turn_behind(alloc, &last)? {
            None => {
                let Turn { whole, .. } = last;
                return Ok(whole);
            }
            Some(next) => mem::drop(mem::replace(&mut last, next)),
        }
    }
    let Turn { whole, .. } = last;
    Ok(whole)
}

/// The turn behind another, or none where it changes nothing. Where its first half makes what that of the turn before
/// made, its second half would make what it made then, which is the program that this turn began with: so it is not
/// run.
fn turn_behind(alloc: Global, last: &Turn) -> Result<Option<Turn>, Memory>
    requires { Rewrites (IsChained second_half) last.now.half last.now.whole }
    ensures { IfOk result (λ next. MatchOption next
        (Rewrites (IsChained turn) last.now.whole last.now.whole)
        (λ next. ChangesBy last.now.whole next.half next.whole)) }
{
    let half = chain_program(alloc, &FIRST_HALF, &last.whole)?;
    if same_program(&last.half, &half) {
        return Ok(None);
    }
    let next = whole_turn(alloc, half)?;
    if same_program(&last.whole, &next.whole) {
        return Ok(None);
    }
    Ok(Some(next))
}

/// A turn of a program.
fn turn_of(alloc: Global, program: &Program) -> Result<Turn, Memory>
    ensures { IfOk result (λ made. IsTurn program.now made.half made.whole) }
{
    let half = chain_program(alloc, &FIRST_HALF, program)?;
    let made = whole_turn(alloc, half)?;
    Ok(made)
}

/// The turn whose first half made this program.
fn whole_turn(alloc: Global, half: Program) -> Result<Turn, Memory>
    ensures begun { IfOk result (λ made. made.half ≡ half) }
    ensures ended { IfOk result (λ made. Rewrites (IsChained second_half) half made.whole) }
{
    let whole = chain_program(alloc, &SECOND_HALF, &half)?;
    Ok(Turn { half, whole })
}
