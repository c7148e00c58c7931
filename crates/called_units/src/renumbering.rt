// Units with other numbers in their calls.
ghost use Rattle.std.specs.Prelude.{◌≡◌, IfOk, map};
ghost use Rattle.flow_graph.specs.NumberTables.{number_at};
ghost use Rattle.called_units.specs.CalledUnits.{redirected_call, with_calls};

use mir_base::{Inst, Items, Memory, Unit as MirUnit};
use std::alloc::Global;

/// The unit, in whose calls stands what the table has for the unit that was called. It fails only with `Memory`.
pub(crate) fn with_calls(alloc: Global, unit: &MirUnit, to: &[usize]) -> Result<MirUnit, Memory>
    ensures { IfOk result (λ made. made ≡ with_calls (number_at to.now) unit.now) }
{
    let body = redirected(alloc, unit.insts(), to)?;
    let name = unit.name.clone()?;
    let vars = unit.vars.clone()?;
    Ok(MirUnit {
        name,
        shared: unit.shared,
        vars,
        body: Items::of(body),
    })
}

/// The instructions, with other numbers in calls.
fn redirected(alloc: Global, body: &[Inst], to: &[usize]) -> Result<Vec<Inst>, Memory>
    ensures { IfOk result (λ made.
        made.items ≡ map (redirected_call (number_at to.now)) body.now) }
{
    let mut made = Vec::with_capacity(alloc, body.len())?;
    for inst in body {
        made.push(redirected_call(inst, to)?)?;
    }
    Ok(made)
}

/// The instruction, with another number where it is a call.
fn redirected_call(inst: &Inst, to: &[usize]) -> Result<Inst, Memory>
    ensures { IfOk result (λ made. made ≡ redirected_call (number_at to.now) inst.now) }
{
    Ok(match inst {
        Inst::Receive(x) => Inst::Receive(*x),
        Inst::Assign(x, rhs) => Inst::Assign(*x, *rhs),
        Inst::Goto(place) => Inst::Goto(*place),
        Inst::If(test, place) => Inst::If(*test, *place),
        Inst::TrapIf(test, raised) => Inst::TrapIf(*test, *raised),
        Inst::Call(into, unit, args) => Inst::Call(*into, number(to, *unit), args.clone()?),
        Inst::Print(a) => Inst::Print(*a),
        Inst::Return(a) => Inst::Return(*a),
    })
}

/// What the table has for a number, and 0 where it has nothing.
fn number(to: &[usize], unit: usize) -> usize
    ensures { result ≡ number_at to.now unit }
{
    match to.get(unit) {
        Some(number) => *number,
        None => 0,
    }
}
