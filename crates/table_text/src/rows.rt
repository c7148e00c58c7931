// The lines of bit rows: one bit of all rows, as `0` and `1`, the first row first. Each function appends what it names,
// and fails only with `Memory`.
ghost use Rattle.std.specs.Prelude.{◌≡◌, ◌+◌, ◌<◌, ◌++◌, codes, length, take};
ghost use Rattle.mir_base.specs.Appending.{AppendsOnOk};
ghost use Rattle.table_text.specs.Columns.{column_below, word_bit};
ghost use Rattle.table_text.specs.Rows.{HaveBit, bit_byte, bits_below, bits_line, edge_bits_line};

use crate::columns::Columns;
use mir_base::Memory;
use std::alloc::AllocError;

/// The bit of this number of all rows, with the title of the line. A row stands for a node.
pub fn put_bits(text: &mut Vec<u8>, lines: &Columns, bit: usize, title: &[u8]) -> Result<(), Memory>
    requires { HaveBit lines.now bit }
    ensures { AppendsOnOk result text.old text.new (bits_line lines.now bit title.now) }
{
    text.extend_from_slice(b"row ")?;
    put_each(text, lines, bit)?;
    put_title(text, title)
}

/// The same line where a row stands for an edge.
pub fn put_edge_bits(
    text: &mut Vec<u8>,
    lines: &Columns,
    bit: usize,
    title: &[u8],
) -> Result<(), Memory>
    requires { HaveBit lines.now bit }
    ensures { AppendsOnOk result text.old text.new (edge_bits_line lines.now bit title.now) }
{
    text.extend_from_slice(b"edges ")?;
    put_each(text, lines, bit)?;
    put_title(text, title)
}

/// The bit of this number of all rows. It is never inlined, so that a profile shows its own cost.
#[inline(never)]
fn put_each(text: &mut Vec<u8>, lines: &Columns, bit: usize) -> Result<(), Memory>
    requires { HaveBit lines.now bit }
    ensures { AppendsOnOk result text.old text.new (bits_below lines.now bit (length lines.now)) }
{
    put_column(text, lines.column(bit), bit % 16)
}

/// The bit of this number of all words of a column.
#[inline(always)]
fn put_column(text: &mut Vec<u8>, column: &[u16], bit: usize) -> Result<(), Memory>
    requires { bit < 16 }
    ensures { AppendsOnOk result text.old text.new
        (column_below column.now bit (length column.now)) }
{
    let start = text.len();
    let Some(end) = start.checked_add(column.len()) else {
        return Err(AllocError);
    };
    text.resize(end, b'0')?;
    write_bits(text.as_mut_slice(), start, column, bit);
    Ok(())
}

/// Writes the bit of this number of all words of a column over the bytes from number `start` on.
#[inline(always)]
fn write_bits(bytes: &mut [u8], start: usize, column: &[u16], bit: usize)
    requires bit { bit < 16 }
    requires room { length bytes.old ≡ start + length column.now }
    ensures { bytes.new
        ≡ take start bytes.old ++ column_below column.now bit (length column.now) }
{
    for row in 0..column.len() {
        bytes[start + row] = word_byte(column[row], bit);
    }
}

/// `1` for a bit of a word that is set, and `0` for one that is not.
#[inline(always)]
fn word_byte(word: u16, bit: usize) -> u8
    requires { bit < 16 }
    ensures { result ≡ bit_byte (word_bit word bit) }
{
    b'0' + ((word >> bit) & 1) as u8
}

/// The title of a line, and its end.
fn put_title(text: &mut Vec<u8>, title: &[u8]) -> Result<(), Memory>
    ensures { AppendsOnOk result text.old text.new (codes " " ++ title.now ++ codes "\n") }
{
    text.extend_from_slice(b" ")?;
    text.extend_from_slice(title)?;
    text.extend_from_slice(b"\n")
}
