// Why a unit is a leaf, or is none, for those who show it.
ghost use Rattle.std.specs.Prelude.{◌≡◌};
ghost use Rattle.unit_join.specs.LeafTests.{IsLeafTest, called_by, first_called};

use crate::leaves::is_short;
use mir_base::{Inst, Unit as MirUnit};

/// What decides whether a unit is a leaf: it is one exactly where it is not long and calls nobody.
#[derive(Clone, Copy, Debug, PartialEq, Eq)]
pub struct LeafTest {
    /// How many instructions it has, receives included.
    pub insts: usize,
    /// Whether these are more than a leaf has, 32.
    pub long: bool,
    /// The unit that its first call calls, and `None` exactly where it has no call.
    pub calls: Option<usize>,
}

/// What decides of the unit whether it is a leaf. It does not allocate.
pub fn leaf_test(unit: &MirUnit) -> LeafTest
    ensures { IsLeafTest unit.now result }
{
    let insts = unit.insts();
    let short = is_short(insts);
    let calls = first_called(insts);
    LeafTest {
        insts: insts.len(),
        long: !short,
        calls,
    }
}

/// The unit that the first call of these instructions calls.
fn first_called(insts: &[Inst]) -> Option<usize>
    ensures { result ≡ first_called insts.now }
{
    for inst in insts {
        match called_by(inst) {
            None => {}
            Some(unit) => return Some(unit),
        }
    }
    None
}

/// The unit that an instruction calls.
fn called_by(inst: &Inst) -> Option<usize>
    ensures { result ≡ called_by inst.now }
{
    match inst {
        Inst::Call(_, unit, _) => Some(*unit),
        _ => None,
    }
}
