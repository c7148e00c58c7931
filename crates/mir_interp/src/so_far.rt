// One step of a run.
ghost use Rattle.std.specs.Prelude.{◌≡◌, ◌+◌, ◌<◌, ◌≤◌, ◌^◌, ◌⊎◌, length, Some, IfOk, IfErr};
ghost use Rattle.mir_base.specs.Expressions.{rhs_count};
ghost use Rattle.mir_base.specs.Frames.{Prints};
ghost use Rattle.mir_base.specs.Shapes.{AllBelow, InstFits, body_at, inst_vars, rhs_vars, test_vars};
ghost use Rattle.mir_base.specs.Units.{test_holds};
ghost use Rattle.mir_interp.specs.RunsSoFar.{IsRunSoFar, SameRoom, StaysRunSoFar, StopsBefore, TakesMemory, at_next, running_inst, running_vars, state_by, state_of, state_past, state_stepped, value_of_rhs, values_of};

use crate::stack::{Stack, operand};
use crate::{Finish, RunFault};
use mir_base::{Inst, MOST_FRAMES, Memory, Program, Rhs, Test, Trap, eval, eval1, relates};

/// A run so far: what it printed, its frames, the evaluations that it counted, and the greatest number of its frames.
#[derive(Drop)]
pub(crate) struct RunSoFar {
    pub(crate) printed: Vec<i64>,
    pub(crate) stack: Stack,
    pub(crate) counted: u64,
    pub(crate) depth: usize,
}

impl RunSoFar {
    /// One step: the instruction at which the running frame stands, or the return of 0 at its end. Only a call and a
    /// print allocate. `Deep` comes before the step that would pass `MOST_FRAMES` frames.
    pub(crate) fn step(&mut self, program: &Program) -> Result<Finish, RunFault>
        requires so_far { IsRunSoFar program.now self.old }
        requires count { self.old.counted + 1 < 2 ^ 64 }
        ensures state { IfOk result (λ finish.
            state_of self.new finish ≡ state_stepped program.now self.old) }
        ensures kept { IfOk result (λ _. IsRunSoFar program.now self.new) }
        ensures few { IfOk result (λ _. self.new.counted ≤ self.old.counted + 1) }
        ensures fault { IfErr result (StopsBefore (state_stepped program.now self.old)) }
        ensures memory { let inst = running_inst program.now self.old.stack in
            IfErr result (λ _. TakesMemory inst) }
        ensures room { let inst = running_inst program.now self.old.stack in
            IfOk result (λ _. TakesMemory inst ⊎ SameRoom self.old self.new) }
    {
        let unit = program.unit(self.stack.running.unit);
        match unit.inst(self.stack.running.place) {
            None => Ok(self.stack.leave(0)),
            Some(inst) => self.execute(program, inst),
        }
    }

    /// One instruction of the running frame.
    fn execute(&mut self, program: &Program, inst: &Inst) -> Result<Finish, RunFault>
        requires so_far { IsRunSoFar program.now self.old }
        requires below { AllBelow (running_vars program.now self.old.stack) (inst_vars inst.now) }
        requires fits { let frame = self.old.stack.running in
            InstFits program.now.units (body_at program.now.units frame.unit) frame.place inst.now }
        requires next { self.old.stack.running.place + 1 < 2 ^ 64 }
        requires count { self.old.counted + 1 < 2 ^ 64 }
        ensures state { IfOk result (λ finish.
            state_of self.new finish ≡ state_past self.old (Some inst.now)) }
        ensures kept { IfOk result (λ _. IsRunSoFar program.now self.new) }
        ensures few { IfOk result (λ _. self.new.counted ≤ self.old.counted + 1) }
        ensures fault { IfErr result (StopsBefore (state_past self.old (Some inst.now))) }
        ensures memory { IfErr result (λ _. TakesMemory (Some inst.now)) }
        ensures room { IfOk result (λ _. TakesMemory (Some inst.now) ⊎ SameRoom self.old self.new) }
    {
        match inst {
            Inst::Receive(x) => {
                let value = self.stack.argument();
                self.stack.assign(*x, value);
                Ok(Finish::Running)
            }
            Inst::Assign(x, rhs) => {
                self.counted += evaluations(*rhs);
                match evaluate(self.stack.variables(), *rhs) {
                    Ok(value) => {
                        self.stack.assign(*x, value);
                        Ok(Finish::Running)
                    }
                    Err(kind) => Ok(Finish::Trapped(kind)),
                }
            }
            Inst::Goto(place) => {
                self.stack.go_to(*place);
                Ok(Finish::Running)
            }
            Inst::If(test, place) => {
                let next = self.stack.running.place + 1;
                if holds(self.stack.variables(), *test) {
                    self.stack.go_to(*place);
                } else {
                    self.stack.go_to(next);
                }
                Ok(Finish::Running)
            }
            Inst::TrapIf(test, number) => {
                let next = self.stack.running.place + 1;
                if holds(self.stack.variables(), *test) {
                    Ok(Finish::Trapped(Trap::Raised(*number)))
                } else {
                    self.stack.go_to(next);
                    Ok(Finish::Running)
                }
            }
            Inst::Call(into, called, args) => {
                self.depth = self.depth.max(self.stack.callers.len() + 2);
                if self.depth > MOST_FRAMES {
                    return Err(RunFault::Deep);
                }
                self.stack.enter(program, *into, *called, args.items())?;
                Ok(Finish::Running)
            }
            Inst::Print(a) => {
                let value = operand(self.stack.variables(), *a);
                self.print(value)?;
                Ok(Finish::Running)
            }
            Inst::Return(a) => {
                let answer = operand(self.stack.variables(), *a);
                Ok(self.stack.leave(answer))
            }
        }
    }

    /// The running frame prints the value, and goes on at the next place.
    fn print(&mut self, value: i64) -> Result<(), Memory>
        requires { self.old.stack.running.place + 1 < 2 ^ 64 }
        ensures state { IfOk result (λ _. state_of self.new Finish.Running ≡
            state_by self.old (Prints value (at_next self.old.stack))) }
        ensures kept { IfOk result (λ _. StaysRunSoFar self.old self.new) }
        ensures counted { IfOk result (λ _. self.new.counted ≡ self.old.counted) }
    {
        self.printed.push(value)?;
        let next = self.stack.running.place + 1;
        self.stack.go_to(next);
        Ok(())
    }
}

/// The value of a right side, where these are the variables, or its trap.
fn evaluate(variables: &[i64], rhs: Rhs) -> Result<i64, Trap>
    requires { AllBelow (length variables.now) (rhs_vars rhs) }
    ensures { result ≡ value_of_rhs (values_of variables.now) rhs }
{
    match rhs {
        Rhs::Plain(a) => Ok(operand(variables, a)),
        Rhs::Unary(op, a) => Ok(eval1(op, operand(variables, a))),
        Rhs::Binary(op, a, b) => eval(op, operand(variables, a), operand(variables, b)),
    }
}

/// How many evaluations an assignment of this right side counts.
fn evaluations(rhs: Rhs) -> u64
    ensures { result ≡ rhs_count rhs }
{
    match rhs {
        Rhs::Plain(_) => 0,
        Rhs::Unary(_, _) => 1,
        Rhs::Binary(_, _, _) => 1,
    }
}

/// Whether a test holds, where these are the variables.
#[inline(always)]
fn holds(variables: &[i64], test: Test) -> bool
    requires { AllBelow (length variables.now) (test_vars test) }
    ensures { result ≡ test_holds (values_of variables.now) test }
{
    match test {
        Test::Rel(relation, a, b) => {
            relates(relation, operand(variables, a), operand(variables, b))
        }
        Test::Holds(a) => operand(variables, a) != 0,
        Test::Fails(a) => operand(variables, a) == 0,
    }
}
