// The smallest of some lines.
ghost use Rattle.std.specs.Prelude.{◌≡◌, if◌then◌else◌};
ghost use Rattle.mir_valid.specs.Refusals.{lesser};

/// The smallest line so far at which a rule is broken, and `None` where there is none.
pub type Least = Option<usize>;

/// The lesser of the smallest line so far and one more.
pub fn lesser(best: Least, line: usize) -> Least
    ensures { result ≡ lesser best line }
{
    match best {
        None => Some(line),
        Some(least) => Some(least.min(line)),
    }
}

/// The smallest line so far, with one more where a rule is broken there.
pub fn lesser_if(is_broken: bool, best: Least, line: usize) -> Least
    ensures { result ≡ (if is_broken then lesser best line else best) }
{
    if is_broken { lesser(best, line) } else { best }
}
