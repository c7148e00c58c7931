// Fields of a line: words and numbers, each behind a blank. Each function appends, and fails only with `Memory`.
ghost use Rattle.std.specs.Prelude.{decimal, flat_map};
ghost use Rattle.mir_base.specs.Appending.{AppendsOnOk};
ghost use Rattle.table_text.specs.Lines.{field};

use mir_base::{Memory, Name};
use mir_print::put_number;

/// Appends a blank and this word.
pub fn put_field(text: &mut Vec<u8>, word: &[u8]) -> Result<(), Memory>
    ensures { AppendsOnOk result text.old text.new (field word.now) }
{
    text.extend_from_slice(b" ")?;
    text.extend_from_slice(word)
}

/// Appends a blank and this number in decimal.
pub fn put_count(text: &mut Vec<u8>, number: usize) -> Result<(), Memory>
    ensures { AppendsOnOk result text.old text.new (field (decimal number)) }
{
    text.extend_from_slice(b" ")?;
    put_number(text, number)
}

/// Appends these names, a blank before each.
pub(crate) fn put_names(text: &mut Vec<u8>, names: &[Name]) -> Result<(), Memory>
    ensures { AppendsOnOk result text.old text.new (flat_map field names.now) }
{
    for name in names {
        put_field(text, name.bytes())?;
    }
    Ok(())
}
