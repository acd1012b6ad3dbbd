// Calls on an open chunk as values, with what they answer.
ghost use Rattle.std.specs.Prelude.{◌≡◌};
ghost use Rattle.chunks.specs.Replays.{used};

use crate::byte_range::ByteRange;
use crate::cached::Cached;
use form::fault::Fault;
use subset::array_subset::ArraySubset;

// A call on an open chunk.
#[derive(Clone, Copy)]
pub enum Call<'a> {
    ReadSubset(ArraySubset<'a>),
    ReadRange(ByteRange),
    Cached,
    // a subset, and its elements
    WriteSubset(ArraySubset<'a>, &'a [u8]),
    Erase,
}

// What a call answered.
#[derive(Clone, Copy, Debug, PartialEq, Eq)]
pub enum Answer {
    Refused(Fault),
    Done,
    // so many bytes of the output
    Bytes(usize),
    Cached(Cached),
}

// An answer, and where in the output its bytes begin.
#[derive(Clone, Copy, Debug, PartialEq, Eq)]
pub struct Recorded {
    pub answer: Answer,
    pub from: usize,
}

impl Answer {
    // How many bytes of the output the answer has.
    pub fn used(&self) -> usize
        ensures { result ≡ used self.now }
    {
        match self {
            Answer::Bytes(count) | Answer::Cached(Cached::Bytes(count)) => *count,
            _ => 0,
        }
    }
}
