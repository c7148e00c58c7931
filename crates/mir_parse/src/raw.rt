// Raw programs: what a text says, with names in place of numbers.
use crate::Memory;
use mir_base::{Items, Name, Op, RelOp, UnOp};
use std::alloc::Global;
use std::marker::Model;

/// What an instruction reads: a variable or a constant.
#[derive(Drop)]
pub enum RawOperand {
    /// The variable of this name.
    Var(Name),
    /// This number.
    Const(i64),
}

/// The right side of an assignment.
#[derive(Drop)]
pub enum RawRhs {
    /// An operand alone.
    Plain(RawOperand),
    /// An operator on one operand.
    Unary(UnOp, RawOperand),
    /// An operator on two operands.
    Binary(Op, RawOperand, RawOperand),
}

/// What a conditional jump or a trap instruction asks.
#[derive(Drop)]
pub enum RawTest {
    /// Whether the relation holds between the two.
    Rel(RelOp, RawOperand, RawOperand),
    /// Whether the operand is not 0.
    Holds(RawOperand),
    /// Whether the operand is 0.
    Fails(RawOperand),
}

/// An instruction, without its line.
#[derive(Drop)]
pub enum RawForm {
    /// `receive x(val)`: the variable.
    Receive(Name),
    /// `x <- rhs`: the variable and the right side.
    Assign(Name, RawRhs),
    /// `goto L`: the label.
    Goto(Name),
    /// `if test goto L`: the test and the label.
    If(RawTest, Name),
    /// `if test trap 7`: the test and the number.
    TrapIf(RawTest, i64),
    /// `x <- f,(a,int;b,int)` or `call f,(a,int;b,int)`: the variable for the result, if there is one, the name of the
    /// called unit, and the arguments in order.
    Call(Option<Name>, Name, Items<RawOperand>),
    /// `print a`: the operand.
    Print(RawOperand),
    /// `return a` or `return`: the operand, if there is one.
    Return(Option<RawOperand>),
}

/// An instruction with its line.
#[derive(Drop)]
pub struct RawInst {
    /// The line of its first token after its labels.
    pub line: usize,
    /// What it does.
    pub form: RawForm,
}

/// A label of a unit.
#[derive(Drop)]
pub struct RawLabel {
    /// The label's name.
    pub name: Name,
    /// Where it stands: the number of the next instruction of its unit, counted from 0, or the number of all of them
    /// where no more follow.
    pub place: usize,
    /// The line of its name.
    pub line: usize,
}

/// A unit. The place of each label is at most the number of the instructions. Contracts see it as the record of its
/// fields.
#[derive(Drop)]
pub struct RawUnit {
    /// The unit's name.
    pub name: Name,
    /// The line of its name.
    pub line: usize,
    /// The labels, in the order of the text.
    pub labels: Items<RawLabel>,
    /// The instructions, in the order of the text.
    pub body: Items<RawInst>,
}

impl Model for RawUnit {
    ghost use Rattle.mir_parse.specs.RawUnit.{RawUnitShape, HasPlaces};

    ghost Value = { RawUnitShape };

    ghost view = { λ u. record { name = u.name; line = u.line; labels = u.labels; body = u.body } };

    ghost invariant = { λ unit. HasPlaces unit.labels unit.body };
}

impl RawUnit {
    ghost use Rattle.std.specs.Prelude.{◌≡◌, OnOk};
    ghost use Rattle.mir_parse.specs.RawUnit.{empty_unit, unit_with_inst, unit_with_label};

    // A unit of this name, which stands on this line, with no label and no instruction.
    pub(crate) fn empty(alloc: Global, name: Name, line: usize) -> RawUnit
        ensures { result ≡ empty_unit name line }
    {
        RawUnit {
            name,
            line,
            labels: Items::new(alloc),
            body: Items::new(alloc),
        }
    }

    // Puts one more instruction at the end of the unit.
    pub(crate) fn push_inst(&mut self, line: usize, form: RawForm) -> Result<(), Memory>
        ensures { OnOk result (self.new ≡ unit_with_inst self.old line form) }
    {
        self.body.push(RawInst { line, form })?;
        Ok(())
    }

    // Puts one more label into the unit, which stands behind its instructions.
    pub(crate) fn push_label(&mut self, line: usize, name: Name) -> Result<(), Memory>
        ensures { OnOk result (self.new ≡ unit_with_label self.old line name) }
    {
        let place = self.body.items().len();
        self.labels.push(RawLabel { name, place, line })?;
        Ok(())
    }
}

/// A global line.
#[derive(Drop)]
pub struct RawGlobal {
    /// The global's name.
    pub name: Name,
    /// The line.
    pub line: usize,
}

/// A raw program: its global lines and its units, in the order of the text.
#[derive(Drop)]
pub struct Raw {
    /// The global lines, in the order of the text.
    pub globals: Items<RawGlobal>,
    /// The units, in the order of the text.
    pub units: Items<RawUnit>,
}
