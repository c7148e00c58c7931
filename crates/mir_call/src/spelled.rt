// The words that bytes spell.
ghost use Rattle.std.specs.Prelude.{◌≡◌, IfOk};
ghost use Rattle.std.specs.Option.{option_map};
ghost use Rattle.mir_top.specs.Commands.{word_bytes};
ghost use Rattle.mir_call.specs.Spelled.{words_in};

use mir_outside::Memory;
use std::alloc::Global;

/// The words that the bytes spell, each ended by a zero byte, and `None` where they spell none: the last one is not
/// ended, or one is not UTF-8. It fails only with `Memory`.
pub fn words_in(alloc: Global, bytes: &[u8]) -> Result<Option<Vec<String>>, Memory>
    ensures { IfOk result (λ words. words_in bytes.now
        ≡ option_map (λ words. word_bytes words.items) words) }
{
    let mut words = Vec::new(alloc);
    let mut word = Vec::new(alloc);
    for byte in bytes {
        if *byte == 0 {
            match String::from_utf8(word) {
                Ok(whole) => words.push(whole)?,
                Err(_) => return Ok(None),
            }
            word = Vec::new(alloc);
        } else {
            word.push(*byte)?;
        }
    }
    if word.is_empty() {
        Ok(Some(words))
    } else {
        Ok(None)
    }
}
