//! From units to programs. In go two programs that are compared unit by unit; out comes a law and no value.
//!
//! The theorem of this crate is the contract of `lift`: programs whose units do the same do the same, through calls and
//! recursion to any depth, and where the units evaluate no more operators, the programs evaluate no more operators.
#![tactic(auto)]

ghost use Rattle.std.specs.Prelude.{◌≡◌, length};
ghost use Rattle.mir_base.specs.Runs.{Cheaper, Follows, Same};
ghost use Rattle.mir_sim.specs.Calls.{CallsHigher, CallsNoMore, HasFewFrames};
ghost use Rattle.mir_sim.specs.Machines.{Shallower};
ghost use Rattle.mir_sim.specs.Pairs.{AllUnitsCheaper, AllUnitsFollow, AllUnitsSame};

use mir_base::Program;

#[cfg(test)]
mod tests;

/// Has no effect; carries the theorem that where two programs have equally many units, and the units of each number
/// receive equally many arguments, have equally many globals and do the same, for all arguments, values of the globals
/// and answers to their calls, the programs are the same. Where each unit of the second besides evaluates no more
/// operators than the first's, the second program evaluates no more operators on any inputs on which both end. The
/// second never has more frames than the first has had at some time. It does not allocate.
pub fn lift(first: &Program, second: &Program)
    requires units { AllUnitsSame first.now second.now }
    ensures same { Same first.now second.now }
    ensures cheaper { AllUnitsCheaper first.now second.now → Cheaper first.now second.now }
    ensures shallower { Shallower first.now second.now }
{
    // The proof needs that there is a first unit, and that calls fit, which each program keeps as its invariant.
    let _ = &first.units;
    let _ = &second.units;
    follow(first, second);
    follow(second, first);
    count(first, second);
}

/// Has no effect; carries the theorem that where two programs have equally many globals, and each unit of the second
/// does whatever the first's of its number does, so does the program.
fn follow(first: &Program, second: &Program)
    requires shared { length first.now.globals ≡ length second.now.globals }
    requires units { AllUnitsFollow first.now second.now }
    ensures { Follows first.now second.now }
{
    // The proof needs that calls fit, which each program keeps as its invariant.
    let _ = &first.units;
}

/// Has no effect; carries the theorem that where each unit of a second program, which is the same unit by unit,
/// evaluates no more operators than the first's, neither does the program.
fn count(first: &Program, second: &Program)
    requires units { AllUnitsSame first.now second.now }
    ensures { AllUnitsCheaper first.now second.now → Cheaper first.now second.now }
{
    // The proof needs that calls fit, which each program keeps as its invariant.
    let _ = &first.units;
}

/// Has no effect; carries the theorem that where each unit of a program calls units of higher numbers alone, no run of
/// it ever has more frames than the program has units. It does not allocate.
pub fn has_few_frames(program: &Program)
    requires { CallsHigher program.now }
    ensures { HasFewFrames program.now }
{
    // The proof needs that calls are of units that there are, which each program keeps as its invariant.
    let _ = &program.units;
}

/// Has no effect; carries the theorem of `has_few_frames` for two programs: units of the first call units of higher
/// numbers alone, and each unit of the second calls only what the unit of its number in the first calls. It does not
/// allocate.
pub fn both_have_few_frames(first: &Program, second: &Program)
    requires higher { CallsHigher first.now }
    requires no_more { CallsNoMore first.now second.now }
    ensures first { HasFewFrames first.now }
    ensures second { HasFewFrames second.now }
{
    has_few_frames(first);
    has_few_frames(second);
}
