// The frames of a run, with their arguments and variables side by side in one growing list. The first variables of each
// frame are the globals: a call copies them from its caller, and a return copies them back.
ghost use Rattle.std.specs.Prelude.{◌≡◌, ◌+◌, ◌<◌, ◌≤◌, ◌^◌, [], ◌∷◌, ◌++◌, length, drop, map, flat_map, replicate, slice_index_or, pos, IfOk};
ghost use Rattle.std.specs.Vec.{vec_capacity};
ghost use Rattle.mir_base.specs.Frames.{first_frame, shared_values};
ghost use Rattle.mir_base.specs.Runs.{Control, first_entry, inputs_of, returned};
ghost use Rattle.mir_base.specs.Shapes.{AllBelow, ProgramShape, body_at, into_vars, operand_vars, receives_in};
ghost use Rattle.mir_base.specs.Units.{assigned, at, operand_value};
ghost use Rattle.mir_interp.specs.RunsSoFar.{AreCopiedWithin, IsStack, SameStackRoom, StaysStack, answer_of, caller_of, control_of, entry_of, running, running_vars, values_of, vars_at, waiting, with_running};

use crate::Finish;
use mir_base::{Memory, Operand, Program};
use std::alloc::Global;

/// A frame: its unit, where it stands, and where its arguments and its variables begin in the list of values. Its
/// variables end where the arguments of the next frame begin; those of the running frame, at the end of the list.
#[derive(Clone, Copy)]
pub(crate) struct Frame {
    pub(crate) unit: usize,
    pub(crate) place: usize,
    pub(crate) arguments: usize,
    pub(crate) variables: usize,
}

/// A frame that waits for the answer to its call, and the variable that the answer goes to.
#[derive(Clone, Copy)]
pub(crate) struct Caller {
    pub(crate) into: Option<usize>,
    pub(crate) frame: Frame,
}

/// How many globals there are, the running frame, the frames that wait, the latest last, and the values of all of them.
#[derive(Drop)]
pub(crate) struct Stack {
    pub(crate) shared: usize,
    pub(crate) running: Frame,
    pub(crate) callers: Vec<Caller>,
    pub(crate) values: Vec<i64>,
}

impl Stack {
    /// The stack at the start of a run: a frame of the first unit alone.
    pub(crate) fn new(alloc: Global, program: &Program, inputs: &[i64]) -> Result<Stack, Memory>
        requires some_unit { 0 < length program.now.units }
        requires inputs { length inputs.now ≡ inputs_of program.now }
        ensures control { IfOk result (λ stack. control_of stack Finish.Running ≡
            Control.Running 0 (first_frame (first_entry stack.shared inputs.now)) []) }
        ensures fits { IfOk result (λ stack. IsStack program.now stack) }
        ensures callers { IfOk result (λ stack. stack.callers.items ≡ []) }
    {
        let variables = inputs.len();
        let mut values = Vec::from_slice(alloc, inputs)?;
        push_zeros(&mut values, program.unit(0).vars.items().len())?;
        let running = Frame {
            unit: 0,
            place: 0,
            arguments: 0,
            variables,
        };
        Ok(Stack {
            shared: program.globals.items().len(),
            running,
            callers: Vec::new(alloc),
            values,
        })
    }

    /// The variables of the running frame, by number.
    pub(crate) fn variables(&self) -> &[i64]
        requires { self.now.running.variables ≤ length self.now.values.items }
        ensures { result.now ≡ drop self.now.running.variables self.now.values.items }
    {
        &self.values[self.running.variables..]
    }

    /// The argument of the receive at which the running frame stands.
    pub(crate) fn argument(&self) -> i64
        requires there { let frame = self.now.running in
            frame.arguments + frame.place < frame.variables }
        requires long { self.now.running.variables ≤ length self.now.values.items }
        ensures { let frame = running self.now in
            result ≡ slice_index_or frame.arguments frame.place (pos 0) }
    {
        self.values[self.running.arguments + self.running.place]
    }

    /// The running frame goes on at this place.
    pub(crate) fn go_to(&mut self, place: usize)
        ensures control { control_of self.new Finish.Running ≡
            with_running self.old (at place (running self.old)) }
        ensures kept { StaysStack self.old self.new }
        ensures callers { self.new.callers.items ≡ self.old.callers.items }
        ensures room { SameStackRoom self.old self.new }
    {
        self.running.place = place;
    }

    /// A variable of the running frame gets the value, and the frame goes on at the next place.
    pub(crate) fn assign(&mut self, x: usize, value: i64)
        requires there { self.old.running.variables + x < length self.old.values.items }
        requires ordered { self.old.running.arguments ≤ self.old.running.variables }
        requires next { self.old.running.place + 1 < 2 ^ 64 }
        ensures control { let next = self.old.running.place + 1 in
            control_of self.new Finish.Running ≡
            with_running self.old (assigned x value next (running self.old)) }
        ensures kept { StaysStack self.old self.new }
        ensures callers { self.new.callers.items ≡ self.old.callers.items }
        ensures room { SameStackRoom self.old self.new }
    {
        self.values[self.running.variables + x] = value;
        self.running.place += 1;
    }

    /// The running frame waits for its call at the next place, and a frame of the called unit begins: its arguments
    /// are the values of the operands, its globals are those of the running frame, and its other variables are 0.
    pub(crate) fn enter(
        &mut self,
        program: &Program,
        into: Option<usize>,
        called: usize,
        operands: &[Operand],
    ) -> Result<(), Memory>
        requires stack { IsStack program.now self.old }
        requires called { called < length program.now.units }
        requires count { length operands.now ≡ receives_in (body_at program.now.units called) }
        requires into { AllBelow (running_vars program.now self.old) (into_vars into) }
        requires operands { let used = flat_map operand_vars operands.now in
            AllBelow (running_vars program.now self.old) used }
        requires next { self.old.running.place + 1 < 2 ^ 64 }
        ensures control { let entry = entry_of self.old operands.now in
            IfOk result (λ _. control_of self.new Finish.Running ≡
            Control.Running called (first_frame entry)
            (caller_of self.old into ∷ waiting self.old)) }
        ensures kept { IfOk result (λ _. IsStack program.now self.new) }
        ensures callers { IfOk result (λ _.
            length self.new.callers.items ≡ length self.old.callers.items + 1) }
    {
        let arguments = self.values.len();
        push_operands(&mut self.values, self.running.variables, operands)?;
        let variables = self.values.len();
        push_globals(&mut self.values, self.running.variables, self.shared)?;
        push_zeros(&mut self.values, own_variables(program, called))?;
        self.running.place += 1;
        self.callers.push(Caller {
            into,
            frame: self.running,
        })?;
        self.running = Frame {
            unit: called,
            place: 0,
            arguments,
            variables,
        };
        Ok(())
    }

    /// The running frame is done, and its answer goes to the latest caller, with the globals; where there is none, it
    /// is the result.
    pub(crate) fn leave(&mut self, answer: i64) -> Finish
        requires { (program : ProgramShape) × IsStack program self.old }
        ensures control { control_of self.new result ≡
            returned (answer_of self.old answer) (waiting self.old) }
        ensures kept { StaysStack self.old self.new }
        ensures callers { length self.new.callers.items ≤ length self.old.callers.items }
        ensures room { SameStackRoom self.old self.new }
    {
        match self.callers.pop() {
            None => Finish::Ended(answer),
            Some(caller) => {
                let from = self.running.variables;
                copy_globals(&mut self.values, from, caller.frame.variables, self.shared);
                self.values.truncate(self.running.arguments);
                self.running = caller.frame;
                if let Some(x) = caller.into {
                    self.values[self.running.variables + x] = answer;
                }
                Finish::Running
            }
        }
    }
}

/// The value of an operand, where these are the variables.
pub(crate) fn operand(variables: &[i64], operand: Operand) -> i64
    requires { AllBelow (length variables.now) (operand_vars operand) }
    ensures { result ≡ operand_value (values_of variables.now) operand }
{
    match operand {
        Operand::Var(x) => variables[x],
        Operand::Const(c) => c,
    }
}

/// Adds the values of the operands, where the variables stand from this index on.
fn push_operands(
    values: &mut Vec<i64>,
    variables: usize,
    operands: &[Operand],
) -> Result<(), Memory>
    requires below { let used = flat_map operand_vars operands.now in
        AllBelow (length (drop variables values.old.items)) used }
    requires long { variables ≤ length values.old.items }
    ensures { let before = values_of (drop variables values.old.items) in
        IfOk result (λ _. values.new.items ≡
        values.old.items ++ map (operand_value before) operands.now) }
{
    for a in operands {
        let value = operand(&values[variables..], *a);
        values.push(value)?;
    }
    Ok(())
}

/// Adds so many zeros.
fn push_zeros(values: &mut Vec<i64>, count: usize) -> Result<(), Memory>
    ensures { IfOk result (λ _. values.new.items ≡ values.old.items ++ replicate count (pos 0)) }
{
    for _ in 0..count {
        values.push(0)?;
    }
    Ok(())
}

/// Adds the values of so many first variables, which stand from this index on.
fn push_globals(values: &mut Vec<i64>, variables: usize, shared: usize) -> Result<(), Memory>
    requires { variables + shared ≤ length values.old.items }
    ensures { let before = values_of (drop variables values.old.items) in
        IfOk result (λ _. values.new.items ≡ values.old.items ++ shared_values shared before) }
{
    for x in 0..shared {
        let value = values[variables + x];
        values.push(value)?;
    }
    Ok(())
}

/// How many variables of a unit are no globals.
fn own_variables(program: &Program, unit: usize) -> usize
    requires { unit < length program.now.units }
    ensures { length program.now.globals + result ≡ length (vars_at program.now.units unit) }
{
    program.unit(unit).vars.items().len() - program.globals.items().len()
}

/// Copies so many values from this index on to another one.
fn copy_globals(values: &mut Vec<i64>, from: usize, to: usize, shared: usize)
    requires from { from + shared ≤ length values.old.items }
    requires to { to + shared ≤ length values.old.items }
    ensures copied { AreCopiedWithin values.old.items values.new.items from to shared }
    ensures long { length values.new.items ≡ length values.old.items }
    ensures room { vec_capacity values.new ≡ vec_capacity values.old }
{
    values.copy_within(from..from + shared, to);
}
