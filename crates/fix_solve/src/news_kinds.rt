// News of values: what of them may not have passed yet along the edges that leave their nodes.
ghost use Rattle.std.specs.Prelude.{ℕ};

/// What of a value is news. It is kept beside the value, and fits values of some sizes.
pub trait News: Drop {
    /// They may stand beside values of this size.
    ghost fits: { Self → ℕ → Type 0 };

    /// All of the value is news.
    ghost is_all: { Self → Type 0 };

    /// Nothing of the value is news.
    ghost is_none: { Self → Type 0 };

    /// Makes all of the value news. It does not allocate.
    fn renew(&mut self)
        ensures all { is_all self.new }
        ensures fits { (size : ℕ) → fits self.old size → fits self.new size };

    /// Leaves nothing that is news. It does not allocate.
    fn settle(&mut self)
        ensures none { is_none self.new }
        ensures fits { (size : ℕ) → fits self.old size → fits self.new size };
}

/// News for values of which nothing is told: each push takes all of the value.
#[derive(Clone, Copy, Debug, Drop)]
pub struct AllNews;

impl News for AllNews {
    ghost fits = { λ news size. Unit {0} };

    ghost is_all = { λ news. Unit {0} };

    ghost is_none = { λ news. Unit {0} };

    fn renew(&mut self) {}

    fn settle(&mut self) {}
}
