// The words of the command line.
ghost use Rattle.std.specs.Prelude.{◌≡◌, ◌≢◌};

use std::alloc::Global;
use std::env::{self, Env};
use std::io::{self, ErrorKind};

/// The words after the program's name. It fails where memory runs out, and at a word that is not UTF-8.
pub fn words<R: Env + Alloc<A = Global>>(rt: &R) -> io::Result<Vec<String>> {
    let mut words = Vec::new(rt.alloc());
    for word in env::args(rt)?.skip(1) {
        words.push(word)?;
    }
    Ok(words)
}

/// The status of a program that cannot get its words: 8 if memory ran out, and otherwise 1.
pub fn status_without_words(kind: ErrorKind) -> u8
    ensures memory { kind ≡ ErrorKind.OutOfMemory → result ≡ 8 }
    ensures other { kind ≢ ErrorKind.OutOfMemory → result ≡ 1 }
{
    match kind {
        ErrorKind::OutOfMemory => 8,
        _ => 1,
    }
}
