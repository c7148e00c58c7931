// Room that pushes are given, so that none of them allocates.
ghost use Rattle.std.specs.Prelude.{ℕ};

/// Room for a value on its way along an edge. What it holds between pushes does not matter.
pub trait Room: Drop {
    /// It is for values of this size.
    ghost fits: { Self → ℕ → Type 0 };
}

/// Room for values that are pushed without any.
#[derive(Clone, Copy, Debug, Drop)]
pub struct NoRoom;

impl Room for NoRoom {
    ghost fits = { λ room size. Unit {0} };
}
