// Keys, and which values of `mir_base` are keys.
ghost use Rattle.std.specs.Prelude.{◌≡◌, true};
ghost use Rattle.key_table.specs.SameValues.{same_exprs};

use mir_base::Expr;
use std::hash::Hash;

/// A type whose values are one value where they are equal.
pub trait Key: Eq + Hash + Copy + Drop {
    ghost same: { (a b : Self) → Self.eq a b ≡ true → a ≡ b };
}

impl Key for Expr {
    ghost same = { same_exprs };
}
