// Constants that are computed.
ghost use Rattle.std.specs.Prelude.{◌≡◌, ◌<◌, false};
ghost use Rattle.mir_base.specs.Numbers.{distance, is_dividing, value_of_op};
ghost use Rattle.term_flow.specs.Terms.{joint_distance, shift_within};

use mir_base::{Op, eval};

/// The value of an operator that never traps.
pub(crate) fn value_of(op: Op, a: i64, b: i64) -> i64
    requires { is_dividing op ≡ false }
    ensures { result ≡ value_of_op op a b }
{
    match eval(op, a, b) {
        Ok(value) => value,
        Err(_) => 0,
    }
}

/// How far two shifts by these numbers go.
pub(crate) fn joint_distance(k: i64, c: i64) -> u8
    ensures value { result ≡ joint_distance k c }
    ensures below { result < 127 }
{
    distance(k) + distance(c)
}

/// The constant of a shift that goes so far, where one does.
pub(crate) fn shift_within(far: u8) -> Option<i64>
    ensures { result ≡ shift_within far }
{
    if far <= 63 {
        Some(i64::from(far))
    } else {
        None
    }
}

/// How far a shift by this number goes.
fn distance(by: i64) -> u8
    ensures value { result ≡ distance by }
    ensures below { result < 64 }
{
    by.rem_euclid(64) as u8
}
