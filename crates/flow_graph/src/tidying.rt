// Units from bodies whose variables have any numbers.
ghost use Rattle.std.specs.Prelude.{◌≡◌, flat_map, length, IfOk};
ghost use Rattle.mir_base.specs.Shapes.{AllBelow, AllDiffer, inst_vars};
ghost use Rattle.flow_graph.specs.Tidied.{tidied_unit};

use crate::rename::{names, rename};
use crate::seen::SeenVars;
use mir_base::{Inst, Items, Memory, Name, Unit as MirUnit};
use std::alloc::Global;

/// The unit of this name and body, without globals, with the variables that occur numbered in the order of their first
/// occurrence. The variables have these names by their old numbers. It fails only with `Memory`.
pub fn tidied(alloc: Global, name: Name, vars: &[Name], body: &[Inst]) -> Result<MirUnit, Memory>
    requires differ { AllDiffer vars.now }
    requires below { AllBelow (length vars.now) (flat_map inst_vars body.now) }
    ensures { IfOk result (λ unit. unit ≡ tidied_unit name vars.now body.now) }
{
    let seen = SeenVars::of(alloc, vars.len(), 0, body)?;
    let mut insts = copied(alloc, body)?;
    rename(alloc, &seen, &mut insts)?;
    let names = names(alloc, vars, seen.seen())?;
    Ok(MirUnit {
        name,
        shared: 0,
        vars: Items::of(names),
        body: Items::of(insts),
    })
}

/// Copies of these instructions.
fn copied(alloc: Global, insts: &[Inst]) -> Result<Vec<Inst>, Memory>
    ensures { IfOk result (λ copied. copied.items ≡ insts.now) }
{
    let mut copied = Vec::with_capacity(alloc, insts.len())?;
    for inst in insts {
        copied.push(inst.clone()?)?;
    }
    Ok(copied)
}
