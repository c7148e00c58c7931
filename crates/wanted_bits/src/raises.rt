// Numbers that are taken over and raised, and which of them rose.
ghost use Rattle.std.specs.Prelude.{◌≡◌, ◌↔◌, ◌≤◌, ◌∷◌, [], false, length};
ghost use Rattle.wanted_bits.specs.BitsOrder.{joined_bits};
ghost use Rattle.wanted_bits.specs.KeptRows.{RaisesBelow};
ghost use Rattle.wanted_bits.specs.NewsShapes.{KeepsRaised};
ghost use Rattle.wanted_bits.specs.Touching.{raised_bits, taken_bits};
ghost use Rattle.wanted_bits.specs.Walking.{bits_at, raised_at};

use crate::news::SomeVariables;

/// Takes the numbers of these variables over from the others.
pub(crate) fn take_listed(bits: &mut [u8], others: &[u8], variables: &[usize])
    requires { length others.now ≡ length bits.old }
    ensures { bits.new ≡ taken_bits others.now variables.now bits.old }
{
    for i in 0..variables.len() {
        take_number(bits, others, variables[i]);
    }
}

/// The same of one variable, where there is one of this number.
fn take_number(bits: &mut [u8], others: &[u8], x: usize)
    requires { length others.now ≡ length bits.old }
    ensures { bits.new ≡ taken_bits others.now (x ∷ []) bits.old }
{
    if x < bits.len() {
        bits[x] = others[x];
    }
}

/// Raises each number to at least the other, puts the variables of those that rose among the news, and answers whether
/// there are any.
pub(crate) fn raise_noting(bits: &mut [u8], others: &[u8], news: &mut SomeVariables) -> bool
    requires { length others.now ≡ length bits.old }
    ensures joined { bits.new ≡ joined_bits bits.old others.now }
    ensures unchanged { (result ≡ false) ↔ (bits.new ≡ bits.old) }
    ensures keeps { KeepsRaised news.old bits.old news.new bits.new }
{
    let mut changed = false;
    for x in 0..bits.len() {
        changed |= raise_one(bits, others, x, news);
    }
    changed
}

/// The same for these variables alone.
pub(crate) fn raise_listed(
    bits: &mut [u8],
    others: &[u8],
    variables: &[usize],
    news: &mut SomeVariables,
) -> bool
    requires { length others.now ≡ length bits.old }
    ensures raised { bits.new ≡ raised_bits others.now variables.now bits.old }
    ensures unchanged { (result ≡ false) ↔ (bits.new ≡ bits.old) }
    ensures keeps { KeepsRaised news.old bits.old news.new bits.new }
{
    let mut changed = false;
    for i in 0..variables.len() {
        changed |= raise_one(bits, others, variables[i], news);
    }
    changed
}

/// The same for one variable, where there is one of this number.
fn raise_one(bits: &mut [u8], others: &[u8], x: usize, news: &mut SomeVariables) -> bool
    requires { length others.now ≡ length bits.old }
    ensures raised { bits.new ≡ raised_at bits.old x (bits_at others.now x) }
    ensures unchanged { (result ≡ false) ↔ (bits_at others.now x ≤ bits_at bits.old x) }
    ensures keeps { KeepsRaised news.old bits.old news.new bits.new }
{
    if x < bits.len() && bits[x] < others[x] {
        bits[x] = others[x];
        news.note(x);
        true
    } else {
        false
    }
}

/// The same for two lots of variables, or for all where one of them is all; no more is said of it than that no number is
/// raised too far.
pub(crate) fn raise_some(
    bits: &mut [u8],
    others: &[u8],
    some: &SomeVariables,
    more: &SomeVariables,
    news: &mut SomeVariables,
) -> bool
    requires { length others.now ≡ length bits.old }
    ensures { RaisesBelow others.now bits.old bits.new }
{
    if some.are_all() || more.are_all() {
        raise_noting(bits, others, news)
    } else {
        let one = raise_listed(bits, others, some.listed(), news);
        let other = raise_listed(bits, others, more.listed(), news);
        one | other
    }
}
