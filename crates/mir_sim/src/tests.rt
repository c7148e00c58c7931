// The law on two programs that differ: one adds two constants, the other has their sum.
ghost use Rattle.std.specs.Prelude.{◌≡◌, pos, List, [], ◌∷◌, length, map, IfOk, IsTrue};
ghost use Rattle.mir_base.specs.declared.instructions.Inst.TheVariants.{Assign, Return};
ghost use Rattle.mir_base.specs.declared.instructions.Operand.TheVariants.{Const, Var};
ghost use Rattle.mir_base.specs.declared.instructions.Rhs.TheVariants.{Binary, Plain};
ghost use Rattle.mir_base.specs.declared.operators.Op.TheVariants.{Add};
ghost use Rattle.mir_base.specs.Runs.{Cheaper, Same};
ghost use Rattle.mir_base.specs.Shapes.{rhs_vars};

use crate::lift;
use mir_base::{Inst, Items, Name, Op, Operand, Program, Rhs, Unit};
use std::alloc::Global;
use std::test::Fail;

/// The program that assigns this right side, which has no variables, and returns it.
fn program(alloc: Global, rhs: Rhs) -> Result<Program, Fail>
    requires { rhs_vars rhs ≡ [] }
    ensures body { let body = Assign 0 rhs ∷ Return (Var 0) ∷ [] in
        IfOk result (λ program. map (λ unit. unit.body) program.units ≡ body ∷ []) }
    ensures no_globals { IfOk result (λ program. program.globals ≡ []) }
{
    let body = Items::new(alloc)
        .with(Inst::Assign(0, rhs))?
        .with(Inst::Return(Operand::Var(0)))?;
    let name = match Name::new(b"main".to_vec(alloc)?) {
        Some(name) => name,
        None => return Err("no name")?,
    };
    let unit = Unit {
        shared: 0,
        vars: Items::new(alloc).with(name.clone()?)?,
        name,
        body,
    };
    Ok(Program::of_unit(alloc, unit)?)
}

/// What is added can be worked out in advance: the units go in lockstep, and the second counts one evaluation less.
fn a_sum_is_worked_out(first: &Program, second: &Program)
    requires sum { let rhs = Binary Add (Const (pos 1)) (Const (pos 2)) in
        map (λ unit. unit.body) first.now.units ≡ (Assign 0 rhs ∷ Return (Var 0) ∷ []) ∷ [] }
    requires worked_out { let rhs = Plain (Const (pos 3)) in
        map (λ unit. unit.body) second.now.units ≡ (Assign 0 rhs ∷ Return (Var 0) ∷ []) ∷ [] }
    requires shared { length first.now.globals ≡ length second.now.globals }
    ensures same { Same first.now second.now }
    ensures cheaper { Cheaper first.now second.now }
{
    lift(first, second)
}

/// The law on the two programs.
#[test]
fn sums_that_are_worked_out(rt: HostRuntime) -> Result<(), Fail> {
    let alloc = rt.alloc();
    let sum = Rhs::Binary(Op::Add, Operand::Const(1), Operand::Const(2));
    let first = program(alloc, sum)?;
    let second = program(alloc, Rhs::Plain(Operand::Const(3)))?;
    a_sum_is_worked_out(&first, &second);
    Ok(())
}
