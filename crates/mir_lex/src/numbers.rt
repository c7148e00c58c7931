// Numbers.
ghost use Rattle.std.specs.Prelude.{◌≡◌, ◌↔◌, ◌==◌, ◌⊎◌, ℕ, ℤ, true, false, Some, IfNone, IfSome, slice_index};
ghost use Rattle.std.specs.Str.{IsUtf8};
ghost use Rattle.mir_lex.specs.Numbers.{signed_number, unsigned_number, IsSignedWord, IsUnsignedWord};
ghost use Rattle.mir_lex.specs.Scanner.{number_of};

use std::str;

/// The number that an optional `-` and decimal digits spell, and `None` where the bytes are no such, or the number does
/// not fit 64 bits with a sign. It does not allocate.
pub fn signed(bytes: &[u8]) -> Option<i64>
    ensures number { result ≡ signed_number bytes.now }
    ensures numeral { (number : ℤ) → (result ≡ Some number) ↔ IsSignedWord bytes.now number }
{
    scanned_number(bytes)
}

/// The number that decimal digits spell, and `None` where the bytes are no such, or the number does not fit 64 bits. It
/// does not allocate.
pub fn unsigned(bytes: &[u8]) -> Option<u64>
    ensures number { result ≡ unsigned_number bytes.now }
    ensures numeral { (number : ℕ) → (result ≡ Some number) ↔ IsUnsignedWord bytes.now number }
{
    parsed_unsigned(bytes)
}

// The same as `unsigned`, without the fact that a numeral stands there.
fn parsed_unsigned(bytes: &[u8]) -> Option<u64>
    ensures { result ≡ unsigned_number bytes.now }
{
    match plain_text(bytes) {
        Some(digits) => digits.parse().ok(),
        None => None,
    }
}

/// The same as `signed`, as the scanner speaks of it.
pub fn scanned_number(bytes: &[u8]) -> Option<i64>
    ensures { result ≡ number_of bytes.now }
{
    match plain_text(bytes) {
        Some(text) => text.parse().ok(),
        None => None,
    }
}

// The bytes as a text, and `None` where they are none, or a plus stands first: the library would take it for a sign.
fn plain_text(bytes: &[u8]) -> Option<&str>
    ensures some { IfSome result (λ text.
        (text.now ≡ bytes.now) × ((slice_index bytes.now 0 == 43) ≡ false)) }
    ensures none { IfNone result
        (((slice_index bytes.now 0 == 43) ≡ true) ⊎ (IsUtf8 bytes.now → ⊥)) }
{
    if begins_with_plus(bytes) {
        return None;
    }
    match str::from_utf8(bytes) {
        Ok(text) => Some(text),
        Err(_) => None,
    }
}

// Whether a plus stands first.
fn begins_with_plus(bytes: &[u8]) -> bool
    ensures { result ≡ (slice_index bytes.now 0 == 43) }
{
    match bytes {
        [first, ..] => *first == b'+',
        [] => false,
    }
}
