// The parser inside an instruction: `part_step` is called once for each token, and for each place in an instruction a
// function says which tokens may stand there and what has then been read. A `Part` is large, so it is changed in place
// and not moved. `mem::replace` puts one in the place of another: a plain assignment would drop the old one each time,
// which takes a sixth of the time of the parser.
ghost use Rattle.std.specs.Prelude.{◌≡◌, IfOk};
ghost use Rattle.mir_parse.specs.Reader.{PartBecomes, relop_of_mark, op_of_mark, op_of_word, filled, wants, mark_then, name_then, fresh, first_part, next_by, receive_word, named, arrowed, binary_with, plain_name, plain_number, call_word, first_arg, typed, goto_word, if_word, rel_with, if_operand, tested, if_goto, if_trap, return_word, full, part_step};

use crate::so_far::{Hole, Part, Progress};
use crate::{Memory, RawForm, RawOperand, RawRhs, RawTest};
use mir_base::{Items, Name, Op, RelOp, UnOp, Word, op_of_relation};
use mir_lex::{Mark, Symbol};
use std::alloc::Global;
use std::mem;

/// Changes the part as the token does. It fails only with `Memory`.
pub fn part_step(alloc: Global, part: &mut Part, symbol: Symbol) -> Result<Progress, Memory>
    ensures { IfOk result (PartBecomes part.new (part_step part.old symbol)) }
{
    match mem::replace(part, Part::Fresh) {
        Part::Fresh => Ok(first(part, symbol)),
        Part::Receive => Ok(receive_word(part, symbol)),
        Part::ReceiveName(name) => Ok(mark_then(
            part,
            Mark::LeftParen,
            Part::ReceiveOpen(name),
            symbol,
        )),
        Part::ReceiveOpen(name) => Ok(name_then(part, b"val", Part::ReceiveVal(name), symbol)),
        Part::ReceiveVal(name) => Ok(mark_then(
            part,
            Mark::RightParen,
            Part::Full(RawForm::Receive(name)),
            symbol,
        )),
        Part::Named(name) => Ok(named(part, name, symbol)),
        Part::Arrowed(into) => Ok(arrowed(part, into, symbol)),
        Part::PlainName(into, name) => Ok(plain_name(part, into, name, symbol)),
        Part::PlainNumber(into, value) => Ok(plain_number(part, into, value, symbol)),
        Part::Wants(hole) => wants(part, hole, symbol),
        Part::Call(into) => Ok(call_word(part, into, symbol)),
        Part::Callee(into, callee) => Ok(mark_then(
            part,
            Mark::Comma,
            Part::Opening(into, callee),
            symbol,
        )),
        Part::Opening(into, callee) => Ok(mark_then(
            part,
            Mark::LeftParen,
            Part::FirstArg(into, callee),
            symbol,
        )),
        Part::FirstArg(into, callee) => first_arg(alloc, part, into, callee, symbol),
        Part::Given(into, callee, args) => Ok(mark_then(
            part,
            Mark::Comma,
            Part::Typing(into, callee, args),
            symbol,
        )),
        Part::Typing(into, callee, args) => Ok(name_then(
            part,
            b"int",
            Part::Typed(into, callee, args),
            symbol,
        )),
        Part::Typed(into, callee, args) => Ok(typed(part, into, callee, args, symbol)),
        Part::Goto => Ok(goto_word(part, symbol)),
        Part::If => Ok(if_word(part, symbol)),
        Part::IfOperand(left) => Ok(if_operand(part, left, symbol)),
        Part::Tested(test) => Ok(tested(part, test, symbol)),
        Part::IfGoto(test) => Ok(if_goto(part, test, symbol)),
        Part::IfTrap(test) => Ok(if_trap(part, test, symbol)),
        Part::Return => Ok(return_word(part, symbol)),
        Part::Full(form) => Ok(full(part, form, symbol)),
    }
}

/// The part after the first token of an instruction, if it may begin one: a name, which may become a label, or a
/// reserved word.
pub fn fresh(symbol: Symbol) -> Option<Part>
    ensures { first_part result ≡ fresh symbol }
{
    match symbol {
        Symbol::Name(name) => Some(Part::Named(name)),
        Symbol::Word(Word::Receive) => Some(Part::Receive),
        Symbol::Word(Word::Goto) => Some(Part::Goto),
        Symbol::Word(Word::If) => Some(Part::If),
        Symbol::Word(Word::Call) => Some(Part::Call(None)),
        Symbol::Word(Word::Print) => Some(Part::Wants(Hole::Print)),
        Symbol::Word(Word::Return) => Some(Part::Return),
        _ => None,
    }
}

// The first token of an instruction.
fn first(part: &mut Part, symbol: Symbol) -> Progress
    ensures { PartBecomes part.new (fresh symbol) result }
{
    match fresh(symbol) {
        Some(next) => go_to(part, next),
        None => Progress::Stops,
    }
}

// The part is this one, and the instruction goes on.
fn go_to(part: &mut Part, next: Part) -> Progress
    ensures progress { result ≡ Progress.Goes }
    ensures part { part.new ≡ next }
{
    mem::drop(mem::replace(part, next));
    Progress::Goes
}

// The part is this name, which is that of a label, and is whole.
fn label(part: &mut Part, name: Name) -> Progress
    ensures progress { result ≡ Progress.Ends }
    ensures part { part.new ≡ Part.Named name }
{
    mem::drop(mem::replace(part, Part::Named(name)));
    Progress::Ends
}

// The part is this instruction, which is whole.
fn end_at(part: &mut Part, form: RawForm) -> Progress
    ensures progress { result ≡ Progress.Ends }
    ensures part { part.new ≡ Part.Full form }
{
    mem::drop(mem::replace(part, Part::Full(form)));
    Progress::Ends
}

// A token after `receive`: the variable.
fn receive_word(part: &mut Part, symbol: Symbol) -> Progress
    ensures { PartBecomes part.new (receive_word symbol) result }
{
    match symbol {
        Symbol::Name(name) => go_to(part, Part::ReceiveName(name)),
        _ => Progress::Stops,
    }
}

// A token where only this mark, which is `,`, `(` or `)`, may stand; `next` is what was read with it.
fn mark_then(part: &mut Part, mark: Mark, next: Part, symbol: Symbol) -> Progress
    ensures { PartBecomes part.new (mark_then mark next symbol) result }
{
    match (mark, symbol) {
        (Mark::Comma, Symbol::Mark(Mark::Comma))
        | (Mark::LeftParen, Symbol::Mark(Mark::LeftParen))
        | (Mark::RightParen, Symbol::Mark(Mark::RightParen)) => go_to(part, next),
        _ => stop(next),
    }
}

// A token that cannot stand after what was read, which is dropped.
fn stop<T: Drop>(read: T) -> Progress
    ensures { result ≡ Progress.Stops }
{
    mem::drop(read);
    Progress::Stops
}

// A token where only the name `word` may stand; `next` is what was read with it.
fn name_then(part: &mut Part, word: &[u8], next: Part, symbol: Symbol) -> Progress
    ensures { PartBecomes part.new (name_then word.now next symbol) result }
{
    match symbol {
        Symbol::Name(name) => {
            if name.bytes() == word {
                go_to(part, next)
            } else {
                stop(next)
            }
        }
        _ => stop(next),
    }
}

// A token after a name at the start: `:`, where the name is a label, or an arrow, where it is assigned to.
fn named(part: &mut Part, name: Name, symbol: Symbol) -> Progress
    ensures { PartBecomes part.new (named name symbol) result }
{
    match symbol {
        Symbol::Mark(Mark::Colon) => label(part, name),
        Symbol::Mark(Mark::Arrow) => go_to(part, Part::Arrowed(name)),
        _ => Progress::Stops,
    }
}

// A token after `x <-`: an operand, an operator on one operand, or `call`.
fn arrowed(part: &mut Part, into: Name, symbol: Symbol) -> Progress
    ensures { PartBecomes part.new (arrowed into symbol) result }
{
    match symbol {
        Symbol::Name(name) => go_to(part, Part::PlainName(into, name)),
        Symbol::Number(value) => go_to(part, Part::PlainNumber(into, value)),
        Symbol::Mark(Mark::Minus) => go_to(part, Part::Wants(Hole::Unary(into, UnOp::Neg))),
        Symbol::Mark(Mark::Bang) => go_to(part, Part::Wants(Hole::Unary(into, UnOp::Not))),
        Symbol::Word(Word::Call) => go_to(part, Part::Call(Some(into))),
        _ => Progress::Stops,
    }
}

// A token after `x <- y`: `,` where y is a called unit, an operator, or the end of the line.
fn plain_name(part: &mut Part, into: Name, name: Name, symbol: Symbol) -> Progress
    ensures { PartBecomes part.new (plain_name into name symbol) result }
{
    match symbol {
        Symbol::Mark(Mark::Comma) => go_to(part, Part::Opening(Some(into), name)),
        Symbol::Mark(mark) => binary_with(part, into, RawOperand::Var(name), op_of_mark(mark)),
        Symbol::Word(word) => binary_with(part, into, RawOperand::Var(name), op_of_word(word)),
        Symbol::LineEnd => end_at(
            part,
            RawForm::Assign(into, RawRhs::Plain(RawOperand::Var(name))),
        ),
        _ => Progress::Stops,
    }
}

// The part after `x <- a op`, where the token is an operator.
fn binary_with(part: &mut Part, into: Name, left: RawOperand, op: Option<Op>) -> Progress
    ensures { PartBecomes part.new (binary_with into left op) result }
{
    match op {
        None => Progress::Stops,
        Some(op) => go_to(part, Part::Wants(Hole::Binary(into, op, left))),
    }
}

// The operator on two operands that a mark names, if it names one.
fn op_of_mark(mark: Mark) -> Option<Op>
    ensures { result ≡ op_of_mark mark }
{
    match mark {
        Mark::Plus => Some(Op::Add),
        Mark::Minus => Some(Op::Sub),
        Mark::Star => Some(Op::Mul),
        Mark::Slash => Some(Op::Div),
        _ => match relop_of_mark(mark) {
            Some(relation) => Some(op_of_relation(relation)),
            None => None,
        },
    }
}

// The relation between two operands of a test that a mark names, if it names one.
fn relop_of_mark(mark: Mark) -> Option<RelOp>
    ensures { result ≡ relop_of_mark mark }
{
    match mark {
        Mark::Equal => Some(RelOp::Eq),
        Mark::NotEqual => Some(RelOp::Ne),
        Mark::Less => Some(RelOp::Lt),
        Mark::LessEqual => Some(RelOp::Le),
        Mark::Greater => Some(RelOp::Gt),
        Mark::GreaterEqual => Some(RelOp::Ge),
        _ => None,
    }
}

// The operator on two operands that a reserved word names, if it names one.
fn op_of_word(word: Word) -> Option<Op>
    ensures { result ≡ op_of_word word }
{
    match word {
        Word::Mod => Some(Op::Mod),
        Word::Min => Some(Op::Min),
        Word::Max => Some(Op::Max),
        Word::Shl => Some(Op::Shl),
        Word::Shr => Some(Op::Shr),
        Word::Shra => Some(Op::Shra),
        Word::And => Some(Op::And),
        Word::Or => Some(Op::Or),
        Word::Xor => Some(Op::Xor),
        _ => None,
    }
}

// A token after `x <- 1`: an operator, or the end of the line.
fn plain_number(part: &mut Part, into: Name, value: i64, symbol: Symbol) -> Progress
    ensures { PartBecomes part.new (plain_number into value symbol) result }
{
    match symbol {
        Symbol::Mark(mark) => binary_with(part, into, RawOperand::Const(value), op_of_mark(mark)),
        Symbol::Word(word) => binary_with(part, into, RawOperand::Const(value), op_of_word(word)),
        Symbol::LineEnd => end_at(
            part,
            RawForm::Assign(into, RawRhs::Plain(RawOperand::Const(value))),
        ),
        _ => Progress::Stops,
    }
}

// A token where only an operand may stand: a variable or a number. It fails only with `Memory`.
fn wants(part: &mut Part, hole: Hole, symbol: Symbol) -> Result<Progress, Memory>
    ensures { IfOk result (PartBecomes part.new (wants hole symbol)) }
{
    match symbol {
        Symbol::Name(name) => Ok(go_to(part, filled(hole, RawOperand::Var(name))?)),
        Symbol::Number(value) => Ok(go_to(part, filled(hole, RawOperand::Const(value))?)),
        _ => Ok(Progress::Stops),
    }
}

// The part with the operand in the place that waited for one. It fails only with `Memory`.
fn filled(hole: Hole, operand: RawOperand) -> Result<Part, Memory>
    ensures { IfOk result (λ part. part ≡ filled hole operand) }
{
    match hole {
        Hole::Unary(into, op) => Ok(Part::Full(RawForm::Assign(into, RawRhs::Unary(op, operand)))),
        Hole::Binary(into, op, left) => Ok(Part::Full(RawForm::Assign(
            into,
            RawRhs::Binary(op, left, operand),
        ))),
        Hole::Arg(into, callee, args) => Ok(Part::Given(into, callee, args.with(operand)?)),
        Hole::Fails => Ok(Part::Tested(RawTest::Fails(operand))),
        Hole::Rel(op, left) => Ok(Part::Tested(RawTest::Rel(op, left, operand))),
        Hole::Print => Ok(Part::Full(RawForm::Print(operand))),
    }
}

// A token after `call`: the name of the called unit.
fn call_word(part: &mut Part, into: Option<Name>, symbol: Symbol) -> Progress
    ensures { PartBecomes part.new (call_word into symbol) result }
{
    match symbol {
        Symbol::Name(callee) => go_to(part, Part::Callee(into, callee)),
        _ => Progress::Stops,
    }
}

// A token after the `(` of a call: the first argument, or the `)` of a call with none. It fails only with `Memory`.
fn first_arg(
    alloc: Global,
    part: &mut Part,
    into: Option<Name>,
    callee: Name,
    symbol: Symbol,
) -> Result<Progress, Memory>
    ensures { IfOk result (PartBecomes part.new (first_arg into callee symbol)) }
{
    match symbol {
        Symbol::Mark(Mark::RightParen) => Ok(go_to(
            part,
            Part::Full(RawForm::Call(into, callee, Items::new(alloc))),
        )),
        symbol => wants(part, Hole::Arg(into, callee, Items::new(alloc)), symbol),
    }
}

// A token after an argument and its type: `;` before one more argument, or the `)` of the call.
fn typed(
    part: &mut Part,
    into: Option<Name>,
    callee: Name,
    args: Items<RawOperand>,
    symbol: Symbol,
) -> Progress
    ensures { PartBecomes part.new (typed into callee args symbol) result }
{
    match symbol {
        Symbol::Mark(Mark::Semicolon) => go_to(part, Part::Wants(Hole::Arg(into, callee, args))),
        Symbol::Mark(Mark::RightParen) => go_to(
            part,
            Part::Full(RawForm::Call(into, callee, args)),
        ),
        _ => Progress::Stops,
    }
}

// A token after `goto`: the label.
fn goto_word(part: &mut Part, symbol: Symbol) -> Progress
    ensures { PartBecomes part.new (goto_word symbol) result }
{
    match symbol {
        Symbol::Name(label) => go_to(part, Part::Full(RawForm::Goto(label))),
        _ => Progress::Stops,
    }
}

// A token after `if`: the first operand of a test, or `!`.
fn if_word(part: &mut Part, symbol: Symbol) -> Progress
    ensures { PartBecomes part.new (if_word symbol) result }
{
    match symbol {
        Symbol::Name(name) => go_to(part, Part::IfOperand(RawOperand::Var(name))),
        Symbol::Number(value) => go_to(part, Part::IfOperand(RawOperand::Const(value))),
        Symbol::Mark(Mark::Bang) => go_to(part, Part::Wants(Hole::Fails)),
        _ => Progress::Stops,
    }
}

// A token after `if a`: `goto` or `trap`, where the test is the operand alone, or a relation.
fn if_operand(part: &mut Part, left: RawOperand, symbol: Symbol) -> Progress
    ensures { PartBecomes part.new (if_operand left symbol) result }
{
    match symbol {
        Symbol::Word(Word::Goto) => go_to(part, Part::IfGoto(RawTest::Holds(left))),
        Symbol::Word(Word::Trap) => go_to(part, Part::IfTrap(RawTest::Holds(left))),
        Symbol::Mark(mark) => rel_with(part, left, relop_of_mark(mark)),
        _ => Progress::Stops,
    }
}

// The part after `if a relop`, where the token is a relation.
fn rel_with(part: &mut Part, left: RawOperand, op: Option<RelOp>) -> Progress
    ensures { PartBecomes part.new (rel_with left op) result }
{
    match op {
        None => Progress::Stops,
        Some(op) => go_to(part, Part::Wants(Hole::Rel(op, left))),
    }
}

// A token after a whole test: `goto` or `trap`.
fn tested(part: &mut Part, test: RawTest, symbol: Symbol) -> Progress
    ensures { PartBecomes part.new (tested test symbol) result }
{
    match symbol {
        Symbol::Word(Word::Goto) => go_to(part, Part::IfGoto(test)),
        Symbol::Word(Word::Trap) => go_to(part, Part::IfTrap(test)),
        _ => Progress::Stops,
    }
}

// A token after `if test goto`: the label.
fn if_goto(part: &mut Part, test: RawTest, symbol: Symbol) -> Progress
    ensures { PartBecomes part.new (if_goto test symbol) result }
{
    match symbol {
        Symbol::Name(label) => go_to(part, Part::Full(RawForm::If(test, label))),
        _ => Progress::Stops,
    }
}

// A token after `if test trap`: the number.
fn if_trap(part: &mut Part, test: RawTest, symbol: Symbol) -> Progress
    ensures { PartBecomes part.new (if_trap test symbol) result }
{
    match symbol {
        Symbol::Number(number) => go_to(part, Part::Full(RawForm::TrapIf(test, number))),
        _ => Progress::Stops,
    }
}

// A token after `return`: an operand, or the end of the line.
fn return_word(part: &mut Part, symbol: Symbol) -> Progress
    ensures { PartBecomes part.new (return_word symbol) result }
{
    match symbol {
        Symbol::Name(name) => go_to(
            part,
            Part::Full(RawForm::Return(Some(RawOperand::Var(name)))),
        ),
        Symbol::Number(value) => go_to(
            part,
            Part::Full(RawForm::Return(Some(RawOperand::Const(value)))),
        ),
        Symbol::LineEnd => end_at(part, RawForm::Return(None)),
        _ => Progress::Stops,
    }
}

// A token after a whole instruction: only the end of the line.
fn full(part: &mut Part, form: RawForm, symbol: Symbol) -> Progress
    ensures { PartBecomes part.new (full form symbol) result }
{
    match symbol {
        Symbol::LineEnd => end_at(part, form),
        _ => stop(form),
    }
}
