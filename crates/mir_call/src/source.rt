// A source over borrowed bytes.
ghost use Rattle.std.specs.Prelude.{◌≡◌, Some};
ghost use Rattle.std.specs.Io.{ReadsAtMost};
ghost use Rattle.std.specs.Io.KnownBytes.{ReadConsumes};
ghost use Rattle.mir_outside.specs.Causes.{HasCause};

use mir_outside::{Failed, Source};

/// A source that gives borrowed bytes, as many as are asked for, and never fails. What is left is the whole of it.
#[derive(Drop)]
pub struct SliceSource<'a> {
    pub left: &'a [u8],
}

impl<'a> Source for SliceSource<'a> {
    ghost left = { λ s. Some s.left.now };

    ghost faults = { λ s. 0 };

    /// Gives as many bytes as there are and fit in `buf`. It does not allocate.
    fn read(&mut self, buf: &mut [u8]) -> Result<usize, Failed>
        ensures bound { ReadsAtMost result buf.new }
        ensures bytes { ReadConsumes (Some self.old.left.now) (Some self.new.left.now)
            result buf.new }
        ensures cause { HasCause 0 0 result }
    {
        let count = buf.len().min(self.left.len());
        let (given, left) = self.left.split_at(count);
        buf[..count].copy_from_slice(given);
        self.left = left;
        Ok(count)
    }
}
