// Groups of instructions, of which the bodies of trial programs are made: an operation, a branch, a loop or a print.
ghost use Rattle.std.specs.Prelude.{◌≡◌, ◌+◌, ◌<◌, ◌++◌, length, OnOk};
ghost use Rattle.mir_trial.specs.Trial.{branch_group, group, group_of, groups, loop_group, operation, operator_of, plain_group, print_group, parameter, parameter_sum, variable};
ghost use Rattle.mir_trial.specs.Draws.{next};

use crate::draws::Draws;
use mir_base::{Inst, Memory, Op, Operand, RelOp, Rhs, Test};

/// The number of the variable `c`, in which a loop counts its turns.
const COUNTER: usize = 8;

/// Draws so many groups and adds them at the end of the body. It fails only with `Memory`.
pub fn push_groups(body: &mut Vec<Inst>, draws: &mut Draws, count: usize) -> Result<(), Memory>
    ensures insts { OnOk result (body.new.items
        ≡ body.old.items ++ (groups count (length body.old.items) draws.old.state).insts) }
    ensures state { OnOk result (draws.new.state
        ≡ (groups count (length body.old.items) draws.old.state).state) }
{
    for group_number in 0..count {
        push_group(body, draws)?;
    }
    Ok(())
}

/// Draws a group and adds it at the end of the body.
fn push_group(body: &mut Vec<Inst>, draws: &mut Draws) -> Result<(), Memory>
    ensures insts { OnOk result (body.new.items
        ≡ body.old.items ++ (group (length body.old.items) draws.old.state).insts) }
    ensures state { OnOk result (draws.new.state
        ≡ (group (length body.old.items) draws.old.state).state) }
{
    let kind = draws.draw(4);
    push_group_of(body, draws, kind)
}

/// Draws a group of this kind and adds it at the end of the body: 0 is an operation, 1 a branch, 2 a loop, 3 a print.
fn push_group_of(body: &mut Vec<Inst>, draws: &mut Draws, kind: u64) -> Result<(), Memory>
    ensures insts { OnOk result (body.new.items
        ≡ body.old.items ++ (group_of kind (length body.old.items) draws.old.state).insts) }
    ensures state { OnOk result (draws.new.state
        ≡ (group_of kind (length body.old.items) draws.old.state).state) }
{
    if kind == 0 {
        push_plain(body, draws)
    } else if kind == 1 {
        push_branch(body, draws)
    } else if kind == 2 {
        push_loop(body, draws)
    } else {
        push_print(body, draws)
    }
}

/// Draws an operation and adds it at the end of the body.
fn push_plain(body: &mut Vec<Inst>, draws: &mut Draws) -> Result<(), Memory>
    ensures insts { OnOk result (body.new.items
        ≡ body.old.items ++ (plain_group draws.old.state).insts) }
    ensures state { OnOk result (draws.new.state ≡ (plain_group draws.old.state).state) }
{
    body.push(operation(draws))?;
    Ok(())
}

/// Draws `V <- P o Q`, where V is one of `v0` to `v5`, P and Q are `a` or `b`, and o is one of eight operators.
fn operation(draws: &mut Draws) -> Inst
    ensures value { result ≡ operation draws.old.state }
    ensures state { draws.new.state ≡ next (next (next (next draws.old.state))) }
{
    let variable = variable(draws);
    let left = parameter(draws);
    let operator = operator(draws.draw(8));
    let right = parameter(draws);
    Inst::Assign(variable, Rhs::Binary(operator, left, right))
}

/// Draws a variable from `v0` to `v5`.
fn variable(draws: &mut Draws) -> usize
    ensures value { result ≡ variable (next draws.old.state) }
    ensures state { draws.new.state ≡ next draws.old.state }
{
    draws.draw(6) as usize + 2
}

/// Draws `a` or `b`, the variables that receive the arguments.
fn parameter(draws: &mut Draws) -> Operand
    ensures value { result ≡ parameter (next draws.old.state) }
    ensures state { draws.new.state ≡ next draws.old.state }
{
    Operand::Var(draws.draw(2) as usize)
}

/// The operator that a number below 8 stands for. None of them divides.
fn operator(number: u64) -> Op
    ensures { result ≡ operator_of number }
{
    match number {
        0 => Op::Add,
        1 => Op::Sub,
        2 => Op::Mul,
        3 => Op::Min,
        4 => Op::Max,
        5 => Op::And,
        6 => Op::Or,
        _ => Op::Xor,
    }
}

/// Draws a branch and adds it at the end of the body: two sums of `a` and `b`, of which a test may skip the first.
fn push_branch(body: &mut Vec<Inst>, draws: &mut Draws) -> Result<(), Memory>
    ensures insts { OnOk result (body.new.items
        ≡ body.old.items ++ (branch_group (length body.old.items) draws.old.state).insts) }
    ensures state { OnOk result (draws.new.state
        ≡ (branch_group (length body.old.items) draws.old.state).state) }
{
    let place = body.len() + 2;
    let asked = parameter(draws);
    let skipped = variable(draws);
    let kept = variable(draws);
    body.push(Inst::If(Test::Holds(asked), place))?;
    body.push(Inst::Assign(skipped, parameter_sum()))?;
    body.push(Inst::Assign(kept, parameter_sum()))?;
    Ok(())
}

/// The right side `a + b`.
fn parameter_sum() -> Rhs
    ensures { result ≡ parameter_sum }
{
    Rhs::Binary(Op::Add, Operand::Var(0), Operand::Var(1))
}

/// Draws a loop and adds it at the end of the body: four turns of one operation, counted in `c`.
fn push_loop(body: &mut Vec<Inst>, draws: &mut Draws) -> Result<(), Memory>
    ensures insts { OnOk result (body.new.items
        ≡ body.old.items ++ (loop_group (length body.old.items) draws.old.state).insts) }
    ensures state { OnOk result (draws.new.state
        ≡ (loop_group (length body.old.items) draws.old.state).state) }
{
    let place = body.len() + 1;
    let turns = Operand::Var(COUNTER);
    let operation = operation(draws);
    body.push(Inst::Assign(COUNTER, Rhs::Plain(Operand::Const(0))))?;
    body.push(operation)?;
    body.push(Inst::Assign(COUNTER, Rhs::Binary(Op::Add, turns, Operand::Const(1))))?;
    body.push(Inst::If(Test::Rel(RelOp::Lt, turns, Operand::Const(4)), place))?;
    Ok(())
}

/// Draws a variable and adds its print at the end of the body.
fn push_print(body: &mut Vec<Inst>, draws: &mut Draws) -> Result<(), Memory>
    ensures insts { OnOk result (body.new.items
        ≡ body.old.items ++ (print_group draws.old.state).insts) }
    ensures state { OnOk result (draws.new.state ≡ (print_group draws.old.state).state) }
{
    body.push(Inst::Print(Operand::Var(variable(draws))))?;
    Ok(())
}
