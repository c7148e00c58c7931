// The instructions of a unit, and their parts.
ghost use Rattle.std.specs.Prelude.{◌≡◌, IfOk};

use crate::{Memory, Op, RelOp, UnOp};
use smallvec::SmallVec;
use std::alloc::{AllocError, Global};
use std::marker::Model;

/// What an instruction reads: a variable, by its number in the unit's list of variables, or a constant.
#[derive(Clone, Copy, Debug, PartialEq, Eq, Hash)]
pub enum Operand {
    /// The variable of this number.
    Var(usize),
    /// This constant, a signed 64-bit number.
    Const(i64),
}

/// The constant 0, with which `SmallVec` fills its unused places. It means nothing to the language.
impl Default for Operand {
    fn default() -> Operand {
        Operand::Const(0)
    }
}

/// The right side of an assignment.
#[derive(Clone, Copy, Debug, PartialEq, Eq, Hash)]
pub enum Rhs {
    /// An operand alone, as in `x <- y`. It counts as no evaluation, since no operator is applied.
    Plain(Operand),
    /// An operator on one operand.
    Unary(UnOp, Operand),
    /// An operator on two operands.
    Binary(Op, Operand, Operand),
}

/// An expression: a right side with an operator.
#[derive(Clone, Copy, Debug, PartialEq, Eq, Hash)]
pub enum Expr {
    /// An operator on one operand.
    Un(UnOp, Operand),
    /// An operator on two operands.
    Bin(Op, Operand, Operand),
}

/// What a conditional jump or a trap instruction asks.
#[derive(Clone, Copy, Debug, PartialEq, Eq, Hash)]
pub enum Test {
    /// Whether the relation holds between the two.
    Rel(RelOp, Operand, Operand),
    /// Whether the operand is not 0.
    Holds(Operand),
    /// Whether the operand is 0.
    Fails(Operand),
}

/// The arguments of a call, in order. Contracts see them as the list of the operands. A single argument is kept without
/// an allocation of its own. Space for more would make every instruction and every node larger.
#[derive(Drop)]
pub struct Args {
    operands: SmallVec<Operand, 1>,
}

impl Model for Args {
    ghost use Rattle.std.specs.Prelude.{List};
    ghost use Rattle.mir_base.specs.declared.instructions.Operand.{Operand};

    ghost Value = { List Operand };

    ghost view = { λ args. args.operands.items };
}

impl Args {
    /// The list of these operands. It fails only with `Memory`.
    pub fn of(alloc: Global, items: &[Operand]) -> Result<Args, Memory>
        ensures { IfOk result (λ args. args ≡ items.now) }
    {
        let operands = SmallVec::from_slice(alloc, items)?;
        Ok(Args { operands })
    }

    /// The operands, in order. It does not allocate.
    pub fn items(&self) -> &[Operand]
        ensures { result.now ≡ self.now }
    {
        self.operands.as_slice()
    }
}

impl Clone for Args {
    ghost is_clone = { λ args copy. copy ≡ args };

    fn clone(&self) -> Result<Args, AllocError> {
        let operands = SmallVec::from_slice(*self.operands.allocator(), self.operands.as_slice())?;
        Ok(Args { operands })
    }
}

/// An instruction. Variables and units are named by their numbers. A target of a jump is a place of the body: the
/// number of an instruction in the body, counted from 0, or the length of the body, which is the place of its `end`.
#[derive(Drop)]
pub enum Inst {
    /// Receive number i of a unit, counted from 0, sets its variable to argument number i.
    Receive(usize),
    /// The variable gets the value of the right side.
    Assign(usize, Rhs),
    /// The run goes on at this place.
    Goto(usize),
    /// The run goes on at this place where the test holds, and at the next place otherwise.
    If(Test, usize),
    /// The run traps with this number where the test holds, and goes on at the next place otherwise.
    TrapIf(Test, u8),
    /// The unit of this number is called with these arguments. Its result goes to the variable, where there is one.
    Call(Option<usize>, usize, Args),
    /// The value of the operand is printed.
    Print(Operand),
    /// The unit returns the value of the operand.
    Return(Operand),
}

impl Clone for Inst {
    ghost is_clone = { λ inst copy. copy ≡ inst };

    fn clone(&self) -> Result<Inst, AllocError> {
        Ok(match self {
            Inst::Receive(x) => Inst::Receive(*x),
            Inst::Assign(x, rhs) => Inst::Assign(*x, *rhs),
            Inst::Goto(place) => Inst::Goto(*place),
            Inst::If(test, place) => Inst::If(*test, *place),
            Inst::TrapIf(test, number) => Inst::TrapIf(*test, *number),
            Inst::Call(into, unit, args) => Inst::Call(*into, *unit, args.clone()?),
            Inst::Print(a) => Inst::Print(*a),
            Inst::Return(a) => Inst::Return(*a),
        })
    }
}
