// The variables of a body: the globals, and then the others, numbered in the order in which they first occur in its
// canonical text.
ghost use Rattle.std.specs.Prelude.{◌≡◌, [], IfOk};
ghost use Rattle.std.specs.List.{flat_map};
ghost use Rattle.mir_valid.specs.Variables.{operand_names, rhs_names, test_names, into_names, returned_names, form_names};
ghost use Rattle.mir_valid.specs.NameTables.{entries_from};
ghost use Rattle.mir_valid.specs.Numbered.{global_variables, variables_of, with_name, AddsNames};

use crate::Memory;
use crate::tables::Table;
use mir_base::Name;
use mir_parse::{RawForm, RawGlobal, RawInst, RawOperand, RawRhs, RawTest};
use std::alloc::Global;
use std::marker::Model;

/// Variables that were found so far, in the order in which they were found. Contracts see it as the list of their
/// names; the number of each is its place in that list.
#[derive(Drop)]
pub struct Variables<'a> {
    numbers: Table<'a>,
    names: Vec<Name>,
}

impl<'a> Model for Variables<'a> {
    ghost use Rattle.std.specs.Prelude.{◌≡◌, List, ℕ};
    ghost use Rattle.mir_valid.specs.NameTables.{entries_from};

    ghost Value = { List (List ℕ) };

    ghost view = { λ vars. vars.names.items };

    ghost invariant = { λ vars. vars.numbers ≡ entries_from 0 vars.names.items };
}

impl<'a> Variables<'a> {
    /// The globals, and the other variables of a body. It fails only with `Memory`.
    pub fn of(
        alloc: Global,
        globals: &'a [RawGlobal],
        body: &'a [RawInst],
    ) -> Result<Variables<'a>, Memory>
        ensures { IfOk result (λ vars. vars ≡ variables_of globals.now body.now) }
    {
        let mut vars = Variables::of_globals(alloc, globals)?;
        for inst in body {
            vars = vars.with_form(&inst.form)?;
        }
        Ok(vars)
    }

    // The globals. It fails only with `Memory`.
    fn of_globals(alloc: Global, globals: &'a [RawGlobal]) -> Result<Variables<'a>, Memory>
        ensures { IfOk result (λ vars. vars ≡ global_variables globals.now) }
    {
        let mut vars = Variables::new(alloc);
        for global in globals {
            vars = vars.with(&global.name)?;
        }
        Ok(vars)
    }

    /// The numbers of the variables. It does not allocate.
    pub fn numbers(&self) -> &Table<'a>
        ensures { result.now ≡ entries_from 0 self.now }
    {
        &self.numbers
    }

    /// The names of the variables, by number. It does not allocate.
    pub fn into_names(self) -> Vec<Name>
        ensures { result.items ≡ self.entry }
    {
        self.names
    }

    // No variable.
    fn new(alloc: Global) -> Variables<'a>
        ensures { result ≡ [] }
    {
        Variables {
            numbers: Table::new(alloc),
            names: Vec::new(alloc),
        }
    }

    // One more variable, unless it was found before.
    fn with(self, name: &'a Name) -> Result<Variables<'a>, Memory>
        ensures { IfOk result (λ vars. vars ≡ with_name self.entry name.now) }
    {
        let Variables {
            mut numbers,
            mut names,
        } = self;
        let is_new = numbers.add(name, names.len())?;
        if is_new {
            names.push(name.clone()?)?;
        }
        Ok(Variables { numbers, names })
    }

    // The variable of an operand.
    fn with_operand(self, operand: &'a RawOperand) -> Result<Variables<'a>, Memory>
        ensures { IfOk result (AddsNames self.entry (operand_names operand.now)) }
    {
        match operand {
            RawOperand::Var(name) => self.with(name),
            RawOperand::Const(_) => Ok(self),
        }
    }

    // The variables of the arguments of a call.
    fn with_operands(self, operands: &'a [RawOperand]) -> Result<Variables<'a>, Memory>
        ensures { IfOk result (AddsNames self.entry (flat_map operand_names operands.now)) }
    {
        let mut vars = self;
        for operand in operands {
            vars = vars.with_operand(operand)?;
        }
        Ok(vars)
    }

    // The variables of the right side of an assignment.
    fn with_rhs(self, rhs: &'a RawRhs) -> Result<Variables<'a>, Memory>
        ensures { IfOk result (AddsNames self.entry (rhs_names rhs.now)) }
    {
        match rhs {
            RawRhs::Plain(a) => self.with_operand(a),
            RawRhs::Unary(_, a) => self.with_operand(a),
            RawRhs::Binary(_, a, b) => self.with_operand(a)?.with_operand(b),
        }
    }

    // The variables of a test.
    fn with_test(self, test: &'a RawTest) -> Result<Variables<'a>, Memory>
        ensures { IfOk result (AddsNames self.entry (test_names test.now)) }
    {
        match test {
            RawTest::Rel(_, a, b) => self.with_operand(a)?.with_operand(b),
            RawTest::Holds(a) => self.with_operand(a),
            RawTest::Fails(a) => self.with_operand(a),
        }
    }

    // The variable for the result of a call.
    fn with_into(self, into: &'a Option<Name>) -> Result<Variables<'a>, Memory>
        ensures { IfOk result (AddsNames self.entry (into_names into.now)) }
    {
        match into {
            None => Ok(self),
            Some(name) => self.with(name),
        }
    }

    // The variable that is returned.
    fn with_returned(self, operand: &'a Option<RawOperand>) -> Result<Variables<'a>, Memory>
        ensures { IfOk result (AddsNames self.entry (returned_names operand.now)) }
    {
        match operand {
            None => Ok(self),
            Some(a) => self.with_operand(a),
        }
    }

    // The variables of an instruction.
    fn with_form(self, form: &'a RawForm) -> Result<Variables<'a>, Memory>
        ensures { IfOk result (AddsNames self.entry (form_names form.now)) }
    {
        match form {
            RawForm::Receive(name) => self.with(name),
            RawForm::Assign(name, rhs) => self.with(name)?.with_rhs(rhs),
            RawForm::Goto(_) => Ok(self),
            RawForm::If(test, _) => self.with_test(test),
            RawForm::TrapIf(test, _) => self.with_test(test),
            RawForm::Call(into, _, operands) => {
                self.with_into(into)?.with_operands(operands.items())
            }
            RawForm::Print(a) => self.with_operand(a),
            RawForm::Return(a) => self.with_returned(a),
        }
    }
}
