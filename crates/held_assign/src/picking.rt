// Which right sides are looked for.
ghost use Rattle.std.specs.Prelude.{◌≡◌, ℕ, Bool};
ghost use Rattle.mir_base.specs.declared.instructions.Rhs.{Rhs};

use mir_base::Rhs;

/// A choice of assignments: of which variables and right sides it is asked where they hold. Those that may trap or that
/// read the variable that they assign are left out, whatever is picked.
pub trait Picks {
    ghost picked: { Self → ℕ → Rhs → Bool };

    /// Whether an assignment of this right side to this variable is picked. It does not allocate.
    fn picks(&self, target: usize, rhs: Rhs) -> bool
        ensures { result ≡ picked self.now target rhs };
}
