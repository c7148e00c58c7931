// The state of the parser: what was read so far. The parser makes one step for each token and never goes back.
use crate::{Raw, RawForm, RawGlobal, RawOperand, RawTest, RawUnit};
use mir_base::{Items, Name, Op, RelOp, UnOp};

/// A place in an instruction where only an operand may stand, with what of the instruction was read before it.
#[derive(Drop)]
pub enum Hole {
    /// `x <- -` or `x <- !`
    Unary(Name, UnOp),
    /// `x <- a op`
    Binary(Name, Op, RawOperand),
    /// `x <- f,(` or `call f,(`, with the arguments before, up to a `;`
    Arg(Option<Name>, Name, Items<RawOperand>),
    /// `if !`
    Fails,
    /// `if a relop`
    Rel(RelOp, RawOperand),
    /// `print`
    Print,
}

/// How much of an instruction was read.
#[derive(Drop)]
pub enum Part {
    /// Nothing.
    Fresh,
    /// `receive`
    Receive,
    /// `receive x`
    ReceiveName(Name),
    /// `receive x(`
    ReceiveOpen(Name),
    /// `receive x(val`
    ReceiveVal(Name),
    /// `x`, which may become a label
    Named(Name),
    /// `x <-`
    Arrowed(Name),
    /// `x <- y`, where y is an operand or a unit to call
    PlainName(Name, Name),
    /// `x <- 1`
    PlainNumber(Name, i64),
    /// All of a statement up to an operand that has to follow.
    Wants(Hole),
    /// `call` or `x <- call`
    Call(Option<Name>),
    /// `call f` or `x <- call f`
    Callee(Option<Name>, Name),
    /// `call f,` or `x <- f,`
    Opening(Option<Name>, Name),
    /// `call f,(` or `x <- f,(`
    FirstArg(Option<Name>, Name),
    /// A call up to and with an argument.
    Given(Option<Name>, Name, Items<RawOperand>),
    /// A call up to the `,` behind an argument.
    Typing(Option<Name>, Name, Items<RawOperand>),
    /// A call up to the `int` of an argument.
    Typed(Option<Name>, Name, Items<RawOperand>),
    /// `goto`
    Goto,
    /// `if`
    If,
    /// `if a`
    IfOperand(RawOperand),
    /// `if test`, which is not an operand alone
    Tested(RawTest),
    /// `if test goto`
    IfGoto(RawTest),
    /// `if test trap`
    IfTrap(RawTest),
    /// `return`
    Return,
    /// All of it but the line end.
    Full(RawForm),
}

/// Where in a unit the parser is.
#[derive(Drop)]
pub enum Spot {
    /// Behind its name.
    Named,
    /// Behind its name and colon; whether the colon was the last token.
    Headed(bool),
    /// Behind its `begin`.
    Begun,
    /// Between its instructions; whether the colon of a label was the last token.
    Inside(bool),
    /// In an instruction that began on this line.
    Mid(usize, Part),
    /// Behind its `end`.
    AfterEnd,
}

/// The global lines and the units that were read whole, and what was read of the next unit.
#[derive(Drop)]
pub struct Reading {
    pub whole: Raw,
    pub unit: RawUnit,
}

/// What was read so far.
#[derive(Drop)]
pub enum ReadSoFar {
    /// These global lines and units.
    Outside(Raw),
    /// These global lines, and a part of the next one, which began on this line: `global`, or that and the name.
    Global(Items<RawGlobal>, usize, Option<Name>),
    /// These global lines and units, and a part of the next unit.
    In(Reading, Spot),
    /// A token of this line that cannot stand there.
    Stopped(usize),
}

/// What a token does to the unit, or to the part of an instruction, that is being read; it is changed in place.
#[derive(Clone, Copy, Debug, PartialEq, Eq)]
pub enum Progress {
    /// It goes on.
    Goes,
    /// It is whole: of a part, `Full` is an instruction and `Named` a label.
    Ends,
    /// The token cannot stand there.
    Stops,
}
