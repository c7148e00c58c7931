// Names of variables, labels and units, and what bytes may stand in one.
ghost use Rattle.std.specs.Prelude.{◌≡◌, ◌↔◌, IfOk, IfSome, IsSome};
ghost use Rattle.std.specs.List.{list_all};
ghost use Rattle.mir_base.specs.Names.{CanBeNumbered, IsName, begins_as_name, is_letter, is_name, is_name_byte, is_reserved, numbered_name};

use crate::{MOST_NAME_BYTES, Memory, reserved_word};
use itoa::Buffer;
use std::alloc::{AllocError, Global};
use std::marker::Model;

/// A name: an ASCII letter and then ASCII letters, digits and `_`, at most 64 bytes, and no reserved word. Contracts
/// see it as the list of its bytes.
#[derive(Drop)]
pub struct Name {
    bytes: Vec<u8>,
}

impl Model for Name {
    ghost use Rattle.std.specs.Prelude.{List, ℕ};
    ghost use Rattle.mir_base.specs.Names.{IsName, begins_as_name};

    ghost Value = { List ℕ };

    ghost view = { λ name. name.bytes.items };

    ghost invariant = { λ name. IsName name.bytes.items };
}

impl Name {
    /// The name of these bytes, and `None` exactly where they are not spelled as a name or are more than
    /// `MOST_NAME_BYTES`; the bytes are then dropped. It does not allocate.
    pub fn new(bytes: Vec<u8>) -> Option<Name>
        ensures spelled { IsSome result ↔ IsName bytes.items }
        ensures same { IfSome result (λ name. name ≡ bytes.items) }
    {
        if Name::is_spelled(&bytes) {
            Some(Name { bytes })
        } else {
            None
        }
    }

    /// The name of these bytes, which are known to be spelled as one, so that nothing is checked. It does not allocate.
    pub fn of(bytes: Vec<u8>) -> Name
        requires { IsName bytes.items }
        ensures { result ≡ bytes.items }
    {
        Name { bytes }
    }

    /// The name of these bytes with the number in decimal behind them. They begin as a name does and are at most 44, so
    /// that with at most 20 digits the name is not too long. It fails only with `Memory`.
    pub fn numbered(alloc: Global, front: &[u8], number: usize) -> Result<Name, Memory>
        requires { CanBeNumbered front.now }
        ensures { IfOk result (λ name. name ≡ numbered_name front.now number) }
    {
        let mut buffer = Buffer::new();
        let mut bytes = Vec::from_slice(alloc, front)?;
        bytes.extend_from_slice(buffer.format(number).as_bytes())?;
        Ok(Name::of(bytes))
    }

    /// The bytes, which are spelled as a name. It does not allocate.
    pub fn bytes(&self) -> &[u8]
        ensures value { result.now ≡ self.now }
        ensures spelled { IsName result.now }
    {
        &self.bytes
    }

    /// Whether the bytes are spelled as a name and are at most `MOST_NAME_BYTES`. It does not allocate.
    pub fn is_spelled(bytes: &[u8]) -> bool
        ensures { result ≡ is_name bytes.now }
    {
        begins_as_name(bytes)
            && has_name_bytes(bytes)
            && bytes.len() <= MOST_NAME_BYTES
            && !is_reserved(bytes)
    }
}

impl Clone for Name {
    ghost is_clone = { λ name copy. copy ≡ name };

    fn clone(&self) -> Result<Name, AllocError> {
        Ok(Name {
            bytes: self.bytes.to_vec(*self.bytes.allocator())?,
        })
    }
}

/// Whether the first byte is a letter.
fn begins_as_name(bytes: &[u8]) -> bool
    ensures { result ≡ begins_as_name bytes.now }
{
    match bytes {
        [first, ..] => is_letter(*first),
        [] => false,
    }
}

/// Whether each of the bytes may stand in a name.
fn has_name_bytes(bytes: &[u8]) -> bool
    ensures { result ≡ list_all is_name_byte bytes.now }
{
    bytes.iter().all(|byte| is_name_byte(*byte))
}

/// Whether the byte is an ASCII letter, with which a name begins. It does not allocate.
pub fn is_letter(byte: u8) -> bool
    ensures { result ≡ is_letter byte }
{
    byte.is_ascii_alphabetic()
}

/// Whether the byte may stand in a name: an ASCII letter or digit, or `_`. It does not allocate.
pub fn is_name_byte(byte: u8) -> bool
    ensures { result ≡ is_name_byte byte }
{
    byte.is_ascii_alphabetic() || byte.is_ascii_digit() || byte == b'_'
}

/// Whether the bytes are a reserved word.
fn is_reserved(bytes: &[u8]) -> bool
    ensures { result ≡ is_reserved bytes.now }
{
    reserved_word(bytes).is_some()
}
