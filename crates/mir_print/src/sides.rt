// Right sides, tests and calls outside a unit. Each function fails only with `Memory`.
ghost use Rattle.std.specs.Prelude.{map};
ghost use Rattle.mir_base.specs.Appending.{AppendsOnOk};
ghost use Rattle.mir_base.specs.Text.{call_text, rhs_text, test_text};
ghost use Rattle.mir_print.specs.Sides.{naming_among, naming_with};

use crate::Memory;
use crate::instructions::put_call;
use crate::operands::{put_rhs, put_test};
use crate::scope::Scope;
use mir_base::{Args, Name, Rhs, Test, Unit};

/// Appends the text of a right side over variables of these names. It fails only with `Memory`.
pub fn put_side(text: &mut Vec<u8>, vars: &[Name], rhs: &Rhs) -> Result<(), Memory>
    ensures { AppendsOnOk result text.old text.new (rhs_text (naming_with vars.now) rhs.now) }
{
    let scope = Scope {
        units: &[],
        vars,
        body: &[],
        counts: &[0, 0],
    };
    put_rhs(text, &scope, rhs)
}

/// Appends the text of a test over variables of these names: `a < b`, `a` or `! a`. It fails only with `Memory`.
pub fn put_test_with(text: &mut Vec<u8>, vars: &[Name], test: &Test) -> Result<(), Memory>
    ensures { AppendsOnOk result text.old text.new (test_text (naming_with vars.now) test.now) }
{
    let scope = Scope {
        units: &[],
        vars,
        body: &[],
        counts: &[0, 0],
    };
    put_test(text, &scope, test)
}

/// Appends the text of a call of the unit of this number among these, over variables of these names: `x <- f,(a,int)`,
/// or `call f,(a,int)`. It fails only with `Memory`.
pub fn put_call_among(
    text: &mut Vec<u8>,
    units: &[Unit],
    vars: &[Name],
    into: &Option<usize>,
    unit: usize,
    args: &Args,
) -> Result<(), Memory>
    ensures { AppendsOnOk result text.old text.new (call_text
        (naming_among (map (λ unit. unit.name) units.now) vars.now) into.now unit args.now) }
{
    let scope = Scope {
        units,
        vars,
        body: &[],
        counts: &[0, 0],
    };
    put_call(text, &scope, into, unit, args)
}
