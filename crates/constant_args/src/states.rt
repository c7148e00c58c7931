// What calls pass for one argument: a state, to which the calls are joined one after the other.
ghost use Rattle.std.specs.Prelude.{◌≡◌, ◌↔◌, slice_get, IsTrue, None, Some};
ghost use Rattle.mir_base.specs.declared.instructions.Operand.TheVariants.{Const, Var};
ghost use Rattle.constant_args.specs.Gathered.{IsPassed, JoinsOperand, JoinsArgument, constant_in};

use mir_base::Operand;

/// What the calls of a unit that are noted so far pass for one of its arguments. A call of a unit by itself may pass on
/// the argument that the unit was given.
#[derive(Clone, Copy)]
pub(crate) enum ArgumentState {
    /// Each passes on what the unit was given, or there is none: nothing is decided.
    Open,
    /// Some passes this constant, and each other passes it too, or passes on what the unit was given.
    Always(i64),
    /// Two pass different constants, or one passes neither a constant nor what the unit was given.
    Varies,
}

/// The constant of the state, where there is one.
pub(crate) fn constant_in(state: ArgumentState) -> Option<i64>
    ensures { result ≡ constant_in state }
{
    match state {
        ArgumentState::Open => None,
        ArgumentState::Always(constant) => Some(constant),
        ArgumentState::Varies => None,
    }
}

/// What one more call makes of the state of argument `i`: it has these operands and passes on these variables.
pub(crate) fn joined_at(
    state: ArgumentState,
    operands: &[Operand],
    kept: &[Option<usize>],
    i: usize,
) -> ArgumentState
    ensures { JoinsArgument operands.now kept.now i state result }
{
    if passes_on(operands, kept, i) {
        state
    } else {
        joined(state, operands, i)
    }
}

/// Whether operand `i` is the variable that passes argument `i` on.
fn passes_on(operands: &[Operand], kept: &[Option<usize>], i: usize) -> bool
    ensures { IsTrue result ↔ IsPassed operands.now kept.now i }
{
    match kept.get(i) {
        None => false,
        Some(None) => false,
        Some(Some(x)) => operand_is_var(operands, i, *x),
    }
}

/// Whether operand `i` is this variable.
fn operand_is_var(operands: &[Operand], i: usize, x: usize) -> bool
    ensures { IsTrue result ↔ (slice_get operands.now i ≡ Some (Var x)) }
{
    match operands.get(i) {
        None => false,
        Some(Operand::Var(other)) => *other == x,
        Some(Operand::Const(_)) => false,
    }
}

/// What operand `i` makes of the state, where it does not pass the argument on.
fn joined(state: ArgumentState, operands: &[Operand], i: usize) -> ArgumentState
    ensures { JoinsOperand state (slice_get operands.now i) result }
{
    match state {
        ArgumentState::Open => first_state(operands, i),
        ArgumentState::Always(constant) => {
            if operand_is_constant(operands, i, constant) {
                state
            } else {
                ArgumentState::Varies
            }
        }
        ArgumentState::Varies => ArgumentState::Varies,
    }
}

/// The state where operand `i` alone counts.
fn first_state(operands: &[Operand], i: usize) -> ArgumentState
    ensures { JoinsOperand ArgumentState.Open (slice_get operands.now i) result }
{
    match operands.get(i) {
        None => ArgumentState::Varies,
        Some(Operand::Var(_)) => ArgumentState::Varies,
        Some(Operand::Const(constant)) => ArgumentState::Always(*constant),
    }
}

/// Whether operand `i` is this constant.
fn operand_is_constant(operands: &[Operand], i: usize, constant: i64) -> bool
    ensures { IsTrue result ↔ (slice_get operands.now i ≡ Some (Const constant)) }
{
    match operands.get(i) {
        None => false,
        Some(Operand::Var(_)) => false,
        Some(Operand::Const(other)) => *other == constant,
    }
}
