// The check of a raw program.
ghost use Rattle.std.specs.Prelude.{◌≡◌, ◌⊎◌, Some, IfOk, IfErr, IsErrAnd, MatchResult};
ghost use Rattle.mir_valid.specs.Refusals.{refusal, IsValid, IsValidMemory, IsFaultOrMemory};
ghost use Rattle.mir_valid.specs.Stands.{StandsFor, StandsForNoOther};

use crate::ValidFault;
use crate::numbering::program_of;
use crate::refusals::refusal;
use mir_base::Program;
use mir_parse::Raw;
use std::alloc::Global;

/// The program that a raw program stands for: names of units and variables become numbers, labels become places, and a
/// `return` without an operand returns 0.
///
/// It refuses a raw program that is not valid. The kinds of refusal are tried in the order of `ValidFault`, and each
/// names the smallest line at which its condition holds; running out of memory may come at any time.
pub fn check(alloc: Global, raw: &Raw) -> Result<Program, ValidFault>
    // A program is answered for a valid raw program alone, which stands for it.
    ensures found { IfOk result (λ program. IsValid raw.now × StandsFor raw.now program) }

    // A valid raw program is refused because memory runs out alone, and it stands for no other program.
    ensures only { IsValid raw.now → MatchResult result (StandsForNoOther raw.now) IsValidMemory }

    // A refusal for another cause is the first that holds, and where one holds it is given.
    ensures refused { IfErr result (λ fault. (refusal raw.now ≡ Some fault) ⊎ IsValidMemory fault) }
    ensures refused_only { (fault : ValidFault) →
        refusal raw.now ≡ Some fault → IsErrAnd result (IsFaultOrMemory fault) }
{
    let globals = raw.globals.items();
    let units = raw.units.items();
    match refusal(alloc, globals, units) {
        Ok(None) => {}
        Ok(Some(fault)) => return Err(fault),
        Err(memory) => return Err(ValidFault::Memory(memory)),
    }
    match program_of(alloc, globals, units) {
        Ok(program) => Ok(program),
        Err(memory) => Err(ValidFault::Memory(memory)),
    }
}
