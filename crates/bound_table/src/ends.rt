// The ends of intervals. Each function fails only with `Memory`.
ghost use Rattle.mir_base.specs.Appending.{AppendsOnOk};
ghost use Rattle.bound_table.specs.BoundLines.{end_text, fact_text, interval_text};

use bounds::{End, Fact};
use itoa::Buffer;
use mir_base::Memory;
use table_text::put_field;

/// Appends what is known of a variable: nothing holds, its value, or the ends between which it lies.
pub(crate) fn put_fact(text: &mut Vec<u8>, fact: Fact) -> Result<(), Memory>
    ensures { AppendsOnOk result text.old text.new (fact_text fact) }
{
    match fact {
        Fact::Never => text.extend_from_slice(b" never"),
        Fact::Fixed(value) => {
            let mut buffer = Buffer::new();
            put_field(text, buffer.format(value).as_bytes())
        }
        Fact::Between(low, high) => put_interval(text, low, high),
    }
}

/// Appends an interval; an end past which there is no number is left out.
fn put_interval(text: &mut Vec<u8>, low: End, high: End) -> Result<(), Memory>
    ensures { AppendsOnOk result text.old text.new (interval_text low high) }
{
    text.extend_from_slice(b" ")?;
    put_end(text, low)?;
    text.extend_from_slice(b"..")?;
    put_end(text, high)
}

/// Appends the number of an end, and nothing for the least and the greatest.
fn put_end(text: &mut Vec<u8>, end: End) -> Result<(), Memory>
    ensures { AppendsOnOk result text.old text.new (end_text end) }
{
    match end {
        End::Least => Ok(()),
        End::Min32 => text.extend_from_slice(b"-2147483648"),
        End::Min16 => text.extend_from_slice(b"-32768"),
        End::Min8 => text.extend_from_slice(b"-128"),
        End::MinusOne => text.extend_from_slice(b"-1"),
        End::Zero => text.extend_from_slice(b"0"),
        End::One => text.extend_from_slice(b"1"),
        End::Max8 => text.extend_from_slice(b"127"),
        End::MaxU8 => text.extend_from_slice(b"255"),
        End::Max16 => text.extend_from_slice(b"32767"),
        End::MaxU16 => text.extend_from_slice(b"65535"),
        End::Max32 => text.extend_from_slice(b"2147483647"),
        End::MaxU32 => text.extend_from_slice(b"4294967295"),
        End::Greatest => Ok(()),
    }
}
