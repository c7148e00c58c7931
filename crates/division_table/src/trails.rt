// The tables of a trail of the motion of divisions.
ghost use Rattle.std.specs.Prelude.{IfOk, length};
ghost use Rattle.mir_opt.specs.Links.{IsDivisionLinked};
ghost use Rattle.table_text.specs.Lines.{names_of_units};
ghost use Rattle.division_table.specs.Trails.{AreDivisionUnits, IsDividedAt, ShowsDivisions};

use crate::units::put_divided;
use mir_base::{Memory, Unit as MirUnit};
use mir_opt::{MoveTrail, MoveUnit};
use std::alloc::Global;
use table_text::{Pieces, text_in_turn, units_of};

/// The tables of `divisions`: for each unit of a linked trail what the motion of divisions finds out, and its graphs.
/// It fails only with `Memory`.
pub fn text_of_divisions(alloc: Global, trail: &MoveTrail) -> Result<Vec<u8>, Memory>
    requires { IsDivisionLinked trail.now }
    ensures { IfOk result (λ text. ShowsDivisions trail.now text.items) }
{
    let sources = units_of(&trail.source);
    let units = trail.units.items();
    let tables = DividedUnits { sources, units };
    let text = text_in_turn(alloc, b"tables 1 divisions\n", &tables)?;
    Ok(text)
}

/// The tables of these units, whose program has the units `sources`.
#[derive(Drop)]
struct DividedUnits<'a> {
    sources: &'a [MirUnit],
    units: &'a [MoveUnit],
}

impl Pieces for DividedUnits<'_> {
    ghost count = { λ s. length s.units.now };

    ghost is_piece = { λ s. IsDividedAt (names_of_units s.sources.now) s.units.now };

    ghost holds = { λ s. AreDivisionUnits s.units.now };

    fn len(&self) -> usize {
        self.units.len()
    }

    fn put(&self, alloc: Global, text: &mut Vec<u8>, number: usize) -> Result<(), Memory> {
        let units = self.units;
        put_divided(alloc, text, self.sources, &units[number])?;
        Ok(())
    }
}
