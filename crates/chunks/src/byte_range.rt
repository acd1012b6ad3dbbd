// A range of bytes.
ghost use Rattle.std.specs.Prelude.{◌≡◌, ◌+◌, ◌≤◌, Ok, IfOk};
ghost use Rattle.form.specs.Refusals.{told, only_if};
ghost use Rattle.chunks.specs.Ranges.{in_range, range_length, range_start};

use form::fault::Fault;

// After zarrs: from an offset on so many bytes, or all to the end; or the last so many.
#[derive(Clone, Copy, Debug, PartialEq, Eq)]
pub enum ByteRange {
    FromStart(usize, Option<usize>),
    Suffix(usize),
}

impl ByteRange {
    // Where the range starts among so many bytes, and how many it has; 18 where it passes their end.
    pub fn within(&self, size: usize) -> Result<(usize, usize), Fault>
        ensures answer { told result ≡ only_if (in_range size self.now) 18 (Ok (range_start size self.now, range_length size self.now)) }
        ensures inside { IfOk result (λ r. r.0 + r.1 ≤ size) }
    {
        let (start, count) = match *self {
            ByteRange::FromStart(offset, Some(count)) => (offset, count),
            ByteRange::FromStart(offset, None) => (offset, size.saturating_sub(offset)),
            ByteRange::Suffix(count) => (size.saturating_sub(count), count),
        };
        if start > size || count > size - start {
            return Err(Fault::ByteRange);
        }
        Ok((start, count))
    }
}
