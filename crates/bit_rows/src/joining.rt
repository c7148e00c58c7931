// How two rows are joined.

/// What becomes of a bit and the other row's bit of the same number.
#[derive(Clone, Copy, Debug, PartialEq, Eq)]
pub enum Joining {
    /// True where either is.
    Or,
    /// True where both are.
    And,
    /// True where the first is and the second is not.
    Minus,
}
