// Every refusal of the library.
ghost use Rattle.std.specs.Prelude.{◌≡◌, Some, None};
ghost use Rattle.form.specs.Refusals.{refusal, value_of, fault_text, Told};

use std::error::Error;
use std::fmt;

// Why a call was refused. `specs/Refusals.antt` gives each case its number and its values.
#[derive(Clone, Copy, Debug, PartialEq, Eq)]
pub enum Fault {
    // not one to four lengths, or a length of 0
    Shape,
    // no data type has the code
    DataType,
    // the array would have more than 4,096 bytes
    ArraySize,
    // the fill value is not one element long
    FillValue,
    // a codec out of order, a second bytes codec, or a chain without one
    CodecOrder,
    // no room for another codec
    NoRoom,
    // the axis order is no permutation of the axes
    AxisOrder,
    // a shuffle's element size is not 1 to 4,096
    ElementSize,
    // the axis order and the shape differ in dimensions
    Dimensions,
    // elements of several bytes, and no endianness
    Endianness,
    // the length is no multiple of the element size
    Multiple,
    // more than 4,096 bytes at some place
    TooLong,
    // the input has not the length it should, or a place or a single is not there
    Length,
    // the output or a work buffer is too short
    BufferShort,
    // the test of a single failed; the single, counted from 0 in decode order
    Checksum(usize),
    // more bytes than the cell can hold
    Capacity,
    // the subset is not one of the array
    Subset,
    // the byte range passes the end
    ByteRange,
    // the cell is absent
    Absent,
    // the cell's buffer, pages and mark do not fit together
    CellLayout,
}

impl Fault {
    // The refusal's number. A match gives it, since `as` takes no enum that has a variant with a value.
    pub fn number(&self) -> u8
        ensures { result ≡ (refusal self.now).number }
    {
        match self {
            Fault::Shape => 1,
            Fault::DataType => 2,
            Fault::ArraySize => 3,
            Fault::FillValue => 4,
            Fault::CodecOrder => 5,
            Fault::NoRoom => 6,
            Fault::AxisOrder => 7,
            Fault::ElementSize => 8,
            Fault::Dimensions => 9,
            Fault::Endianness => 10,
            Fault::Multiple => 11,
            Fault::TooLong => 12,
            Fault::Length => 13,
            Fault::BufferShort => 14,
            Fault::Checksum(_) => 15,
            Fault::Capacity => 16,
            Fault::Subset => 17,
            Fault::ByteRange => 18,
            Fault::Absent => 19,
            Fault::CellLayout => 20,
        }
    }

    // The single that a failed test names, for the one refusal that carries a value.
    pub fn single(&self) -> Option<usize>
        ensures { result ≡ value_of (refusal self.now) }
    {
        match self {
            Fault::Checksum(k) => Some(*k),
            _ => None,
        }
    }
}

// The number, and the single where there is one, as "refused 13" and "refused 15 at 2".
impl fmt::Display for Fault {
    ghost output = { λ fault. Some (fault_text fault) };

    fn fmt<W: fmt::Write>(&self, f: &mut fmt::Formatter<W>) -> fmt::Result {
        match self.single() {
            Some(single) => write!(f, "refused {} at {single}", self.number()),
            None => write!(f, "refused {}", self.number()),
        }
    }
}

impl Error for Fault {}

// No two refusals have the same number and values.
pub fn refusals_told_apart()
    ensures { Told }
{}
