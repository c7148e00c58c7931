// How many bits are wanted of what a right side is made of, and what it becomes. Each number of bits is at most 64.
ghost use Rattle.std.specs.Prelude.{◌≡◌, ◌≤◌, ◌<◌, true, false, IfNone, IfSome};
ghost use Rattle.mir_base.specs.Numbers.{distance, wrapped};
ghost use Rattle.wanted_bits.specs.Agreement.{bit_length, low_bits};
ghost use Rattle.wanted_bits.specs.Wanted.{if_any, is_right_shift, is_undone, length_of, shift_by, wanted_left, wanted_right, wanted_shl, wanted_shr, wants_both};
ghost use Rattle.wanted_bits.specs.Narrowed.{has_ones, has_zeros, is_neutral, is_neutral_left, narrowed_past, without_neutral};

use crate::picking::Shift;
use mir_base::{Op, Operand, Rhs};

// ---- what is wanted

/// The bits that are wanted of the left operand, where this is the right one.
pub(crate) fn wanted_left(op: Op, b: Operand, k: u8) -> u8
    requires { k ≤ 64 }
    ensures value { result ≡ wanted_left op b k }
    ensures most { result ≤ 64 }
{
    match op {
        Op::Add | Op::Sub | Op::Mul | Op::Or | Op::Xor => k,
        Op::And => k.min(length_of(b)),
        Op::Shl => wanted_shl(b, k),
        Op::Shr | Op::Shra => wanted_shr(b, k),
        _ => if_any(k, 64),
    }
}

/// The bits that are wanted of the right operand, where this is the left one.
pub(crate) fn wanted_right(op: Op, a: Operand, k: u8) -> u8
    requires { k ≤ 64 }
    ensures value { result ≡ wanted_right op a k }
    ensures most { result ≤ 64 }
{
    match op {
        Op::Add | Op::Sub | Op::Mul | Op::Or | Op::Xor => k,
        Op::And => k.min(length_of(a)),
        Op::Shl | Op::Shr | Op::Shra => if_any(k, 6),
        Op::Div | Op::Mod => 64,
        _ => if_any(k, 64),
    }
}

/// Whether as many bits are wanted of both operands as of the result, whatever they are.
pub(crate) fn wants_both(op: Op) -> bool
    ensures { result ≡ wants_both op }
{
    matches!(op, Op::Add | Op::Sub | Op::Mul | Op::Or | Op::Xor)
}

/// `bits` where some bit of the result is wanted, and else 0.
pub(crate) fn if_any(k: u8, bits: u8) -> u8
    requires { bits ≤ 64 }
    ensures value { result ≡ if_any k bits }
    ensures most { result ≤ 64 }
{
    if k == 0 { 0 } else { bits }
}

/// What a shift by this operand to the left wants of what it shifts.
fn wanted_shl(b: Operand, k: u8) -> u8
    requires { k ≤ 64 }
    ensures value { result ≡ wanted_shl b k }
    ensures most { result ≤ 64 }
{
    match b {
        Operand::Var(_) => k,
        Operand::Const(c) => k.saturating_sub(distance(c)),
    }
}

/// And to the right.
fn wanted_shr(b: Operand, k: u8) -> u8
    requires { k ≤ 64 }
    ensures value { result ≡ wanted_shr b k }
    ensures most { result ≤ 64 }
{
    match b {
        Operand::Var(_) => if_any(k, 64),
        Operand::Const(c) => if_any(k, (k + distance(c)).min(64)),
    }
}

/// How many bits of an operand may be 1.
fn length_of(a: Operand) -> u8
    ensures value { result ≡ length_of a }
    ensures most { result ≤ 64 }
{
    match a {
        Operand::Var(_) => 64,
        Operand::Const(c) => 64 - c.cast_unsigned().leading_zeros() as u8,
    }
}

/// How far a shift by this number goes.
pub(crate) fn distance(by: i64) -> u8
    ensures value { result ≡ distance (wrapped by) }
    ensures below { result < 64 }
{
    by.rem_euclid(64) as u8
}

// ---- what is shifted back

/// Whether the wanted bits of what is shifted back are those of the source.
pub(crate) fn is_undone(shift: Shift, k: u8) -> bool
    requires { k ≤ 64 }
    ensures { result ≡ is_undone shift k }
{
    k as usize + shift.distance as usize <= 64
}

/// The shift, if it is by the distance of this operand.
pub(crate) fn shift_by(shift: Option<Shift>, b: Operand) -> Option<Shift>
    ensures { result ≡ shift_by shift b }
{
    match shift {
        None => None,
        Some(shift) => match b {
            Operand::Var(_) => None,
            Operand::Const(c) => {
                if shift.distance == distance(c) {
                    Some(shift)
                } else {
                    None
                }
            }
        },
    }
}

/// Whether the operator shifts to the right.
pub(crate) fn is_right_shift(op: Op) -> bool
    ensures { result ≡ is_right_shift op }
{
    matches!(op, Op::Shr | Op::Shra)
}

// ---- what right sides become

/// What a right side becomes of which k bits are wanted, where it shifts this back.
pub(crate) fn narrowed_past(back: Option<Shift>, rhs: Rhs, k: u8) -> Rhs
    requires { k ≤ 64 }
    ensures { result ≡ narrowed_past back rhs k }
{
    match back {
        None => without_neutral(rhs, k),
        Some(shift) => {
            if is_undone(shift, k) {
                Rhs::Plain(Operand::Var(shift.source))
            } else {
                rhs
            }
        }
    }
}

/// What it becomes where it shifts nothing back.
fn without_neutral(rhs: Rhs, k: u8) -> Rhs
    requires { k ≤ 64 }
    ensures { result ≡ without_neutral rhs k }
{
    match rhs {
        Rhs::Plain(a) => Rhs::Plain(a),
        Rhs::Unary(op, a) => Rhs::Unary(op, a),
        Rhs::Binary(op, a, b) => {
            if is_neutral(op, k, b) {
                Rhs::Plain(a)
            } else if is_neutral_left(op, k, a) {
                Rhs::Plain(b)
            } else {
                Rhs::Binary(op, a, b)
            }
        }
    }
}

/// Whether with this right operand the operator leaves the k lowest bits of the left one.
fn is_neutral(op: Op, k: u8, b: Operand) -> bool
    requires { k ≤ 64 }
    ensures { result ≡ is_neutral op k b }
{
    match op {
        Op::Add | Op::Sub | Op::Or | Op::Xor => has_zeros(k, b),
        Op::And => has_ones(k, b),
        _ => false,
    }
}

/// Whether with this left operand it leaves those of the right one.
fn is_neutral_left(op: Op, k: u8, a: Operand) -> bool
    requires { k ≤ 64 }
    ensures { result ≡ is_neutral_left op k a }
{
    match op {
        Op::Add | Op::Or | Op::Xor => has_zeros(k, a),
        Op::And => has_ones(k, a),
        _ => false,
    }
}

/// Whether the operand is a constant whose k lowest bits are all 0.
fn has_zeros(k: u8, b: Operand) -> bool
    requires { k ≤ 64 }
    ensures { result ≡ has_zeros k b }
{
    match b {
        Operand::Var(_) => false,
        Operand::Const(c) => low_bits(k, c) == 0,
    }
}

/// Whether they are all 1.
fn has_ones(k: u8, b: Operand) -> bool
    requires { k ≤ 64 }
    ensures { result ≡ has_ones k b }
{
    match b {
        Operand::Var(_) => false,
        Operand::Const(c) => low_bits(k, c) == low_bits(k, -1),
    }
}

/// The k lowest bits of a number.
fn low_bits(k: u8, c: i64) -> u64
    requires { k ≤ 64 }
    ensures { result ≡ low_bits k (wrapped c) }
{
    let bits = c.cast_unsigned();
    if k < 64 { bits % (1u64 << k) } else { bits }
}
