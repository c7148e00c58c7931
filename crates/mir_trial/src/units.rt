// Units, and the program.
ghost use Rattle.std.specs.Prelude.{◌≡◌, ◌+◌, ◌<◌, ◌≤◌, ◌^◌, ℕ, length, slice_get, Some, IfOk, OnOk};
ghost use Rattle.mir_base.specs.Limits.{most_units};
ghost use Rattle.mir_base.specs.Names.{IsName};
ghost use Rattle.mir_base.specs.Runs.{inputs_of};
ghost use Rattle.mir_base.specs.Shapes.{UnitShape};
ghost use Rattle.mir_sim.specs.Calls.{CallsHigher};
ghost use Rattle.mir_trial.specs.Trial.{body_of, groups, trial_program, unit_of, variables};

use crate::draws::Draws;
use crate::groups::push_groups;
use flow_graph::tidied;
use mir_base::{Args, Inst, Items, Memory, Name, Operand, Program, Unit as MirUnit};
use std::alloc::Global;

/// How many groups of instructions a unit has.
const GROUPS: usize = 60;

/// The trial program of this number, the seed of all that is drawn, with `count` units. It is valid, and takes two
/// inputs. Each of its units has at most 245 instructions, and calls no unit but the next one. It fails only with
/// `Memory`.
pub fn trial_program(alloc: Global, number: u64, count: usize) -> Result<Program, Memory>
    requires some { 0 < count }
    requires few { count ≤ most_units }
    ensures program { IfOk result (λ program. program ≡ trial_program number count) }
    ensures higher { IfOk result CallsHigher }
    ensures units { IfOk result (λ program. length program.units ≡ count) }
    ensures inputs { IfOk result (λ program. inputs_of program ≡ 2) }
    ensures short { IfOk result (λ program. (u : ℕ) (unit : UnitShape)
        → slice_get program.units u ≡ Some unit → length unit.body ≤ 245) }
{
    let vars = variables(alloc)?;
    let mut draws = Draws { state: number };
    let mut units = Vec::new(alloc);
    for j in 0..count {
        units.push(unit(alloc, &mut draws, &vars, j, j + 1 == count)?)?;
    }
    Ok(Program {
        globals: Items::new(alloc),
        units: Items::of(units),
    })
}

/// The unit of this number, counted from 0, of a trial program; its groups are drawn from the state `draws`. Unless it
/// is the last one, it calls the next unit. It fails only with `Memory`.
fn unit(
    alloc: Global,
    draws: &mut Draws,
    vars: &[Name],
    number: usize,
    last: bool,
) -> Result<MirUnit, Memory>
    requires vars { vars.now ≡ variables }
    requires room { number + 1 < 2 ^ 64 }
    ensures unit { IfOk result (λ unit. unit ≡ unit_of number last draws.old.state) }
    ensures state { OnOk result (draws.new.state ≡ (groups 60 2 draws.old.state).state) }
{
    let body = body(alloc, draws, number, last)?;
    let name = Name::numbered(alloc, b"u", number)?;
    let unit = tidied(alloc, name, vars, &body)?;
    Ok(unit)
}

/// The names of the variables of a unit, by number.
#[tactic(auto, using(crate::proofs::Spelled::is_unreserved))]
fn variables(alloc: Global) -> Result<Vec<Name>, Memory>
    ensures { IfOk result (λ names. names.items ≡ variables) }
{
    let mut names = Vec::new(alloc);
    names.push(named(alloc, b"a")?)?;
    names.push(named(alloc, b"b")?)?;
    names.push(named(alloc, b"v0")?)?;
    names.push(named(alloc, b"v1")?)?;
    names.push(named(alloc, b"v2")?)?;
    names.push(named(alloc, b"v3")?)?;
    names.push(named(alloc, b"v4")?)?;
    names.push(named(alloc, b"v5")?)?;
    names.push(named(alloc, b"c")?)?;
    Ok(names)
}

/// The name of these bytes, which are spelled as one.
fn named(alloc: Global, bytes: &[u8]) -> Result<Name, Memory>
    requires { IsName bytes.now }
    ensures { IfOk result (λ name. name ≡ bytes.now) }
{
    let bytes = bytes.to_vec(alloc)?;
    Ok(Name::new(bytes).unwrap())
}

/// The body of unit number `number`, before its variables are numbered in the order of their first occurrence.
fn body(alloc: Global, draws: &mut Draws, number: usize, last: bool) -> Result<Vec<Inst>, Memory>
    requires { number + 1 < 2 ^ 64 }
    ensures body { IfOk result (λ body. body.items ≡ body_of number last draws.old.state) }
    ensures state { OnOk result (draws.new.state ≡ (groups 60 2 draws.old.state).state) }
{
    let mut body = Vec::new(alloc);
    body.push(Inst::Receive(0))?;
    body.push(Inst::Receive(1))?;
    push_groups(&mut body, draws, GROUPS)?;
    if !last {
        let args = Args::of(alloc, &[Operand::Var(3), Operand::Var(4)])?;
        body.push(Inst::Call(Some(2), number + 1, args))?;
    }
    body.push(Inst::Print(Operand::Var(2)))?;
    body.push(Inst::Return(Operand::Var(5)))?;
    Ok(body)
}
