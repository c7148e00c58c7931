// Instructions with the variables numbered by their first occurrence.
ghost use Rattle.std.specs.Prelude.{◌≡◌, ◌<◌, ◌++◌, [], flat_map, length, map, option_map, slice_index_or, IfOk, OnOk};
ghost use Rattle.mir_base.specs.Shapes.{AllBelow, inst_vars, into_vars, operand_vars, rhs_vars, test_vars};
ghost use Rattle.flow_graph.specs.Numbering.{first_index, renamed, renamed_operand, renamed_rhs, renamed_test};

use crate::seen::SeenVars;
use mir_base::{Args, Inst, Memory, Name, Operand, Rhs, Test};
use std::alloc::Global;

/// Numbers each variable of a body by its place among those seen. The instructions are changed where they stand.
pub(crate) fn rename(alloc: Global, seen: &SeenVars, body: &mut [Inst]) -> Result<(), Memory>
    requires { AllBelow seen.now.vars (flat_map inst_vars body.old) }
    ensures { OnOk result (body.new ≡ map (renamed (first_index seen.now.seen)) body.old) }
{
    for number in 0..body.len() {
        rename_inst(alloc, seen, &mut body[number])?;
    }
    Ok(())
}

/// Renumbers the variables of an instruction.
fn rename_inst(alloc: Global, seen: &SeenVars, inst: &mut Inst) -> Result<(), Memory>
    requires { AllBelow seen.now.vars (inst_vars inst.old) }
    ensures { OnOk result (inst.new ≡ renamed (first_index seen.now.seen) inst.old) }
{
    match inst {
        Inst::Receive(x) => *x = seen.first_index(*x),
        Inst::Assign(x, rhs) => {
            *x = seen.first_index(*x);
            *rhs = rename_rhs(seen, *rhs);
        }
        Inst::Goto(_) => {}
        Inst::If(test, _) => *test = rename_test(seen, *test),
        Inst::Call(into, _, args) => {
            *args = rename_args(alloc, seen, args.items())?;
            *into = rename_into(seen, *into);
        }
        Inst::Print(a) => *a = rename_operand(seen, *a),
        Inst::TrapIf(test, _) => *test = rename_test(seen, *test),
        Inst::Return(a) => *a = rename_operand(seen, *a),
    }
    Ok(())
}

/// The operand with its variable, if it is one, renumbered.
fn rename_operand(seen: &SeenVars, a: Operand) -> Operand
    requires { AllBelow seen.now.vars (operand_vars a) }
    ensures { result ≡ renamed_operand (first_index seen.now.seen) a }
{
    match a {
        Operand::Var(x) => Operand::Var(seen.first_index(x)),
        Operand::Const(c) => Operand::Const(c),
    }
}

/// The right side with its variables renumbered.
fn rename_rhs(seen: &SeenVars, rhs: Rhs) -> Rhs
    requires { AllBelow seen.now.vars (rhs_vars rhs) }
    ensures { result ≡ renamed_rhs (first_index seen.now.seen) rhs }
{
    match rhs {
        Rhs::Plain(a) => Rhs::Plain(rename_operand(seen, a)),
        Rhs::Unary(op, a) => Rhs::Unary(op, rename_operand(seen, a)),
        Rhs::Binary(op, a, b) => Rhs::Binary(op, rename_operand(seen, a), rename_operand(seen, b)),
    }
}

/// The test with its variables renumbered.
fn rename_test(seen: &SeenVars, test: Test) -> Test
    requires { AllBelow seen.now.vars (test_vars test) }
    ensures { result ≡ renamed_test (first_index seen.now.seen) test }
{
    match test {
        Test::Rel(op, a, b) => Test::Rel(op, rename_operand(seen, a), rename_operand(seen, b)),
        Test::Holds(a) => Test::Holds(rename_operand(seen, a)),
        Test::Fails(a) => Test::Fails(rename_operand(seen, a)),
    }
}

/// The arguments with their variables renumbered.
fn rename_args(alloc: Global, seen: &SeenVars, operands: &[Operand]) -> Result<Args, Memory>
    requires { AllBelow seen.now.vars (flat_map operand_vars operands.now) }
    ensures { IfOk result (λ args.
        args ≡ map (renamed_operand (first_index seen.now.seen)) operands.now) }
{
    let mut renamed = Vec::new(alloc);
    for a in operands {
        renamed.push(rename_operand(seen, *a))?;
    }
    Args::of(alloc, renamed.as_slice())
}

/// The variable that gets the result, renumbered.
fn rename_into(seen: &SeenVars, into: Option<usize>) -> Option<usize>
    requires { AllBelow seen.now.vars (into_vars into) }
    ensures { result ≡ option_map (first_index seen.now.seen) into }
{
    match into {
        None => None,
        Some(x) => Some(seen.first_index(x)),
    }
}

/// The names of these variables.
pub(crate) fn names(alloc: Global, vars: &[Name], seen: &[usize]) -> Result<Vec<Name>, Memory>
    requires { AllBelow (length vars.now) seen.now }
    ensures { IfOk result (λ names.
        names.items ≡ map (λ x. slice_index_or vars.now x []) seen.now) }
{
    let mut names = Vec::with_capacity(alloc, seen.len())?;
    for x in seen {
        names.push(name_at(vars, *x)?)?;
    }
    Ok(names)
}

/// The name of a variable.
fn name_at(vars: &[Name], x: usize) -> Result<Name, Memory>
    requires { x < length vars.now }
    ensures { IfOk result (λ name. name ≡ slice_index_or vars.now x []) }
{
    let name = vars[x].clone()?;
    Ok(name)
}
