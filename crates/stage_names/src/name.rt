// Stages as they are named, before the library has taken them.
use bytes_codec::bytes_codec::Endianness;

// A stage from arrays to arrays.
#[derive(Drop)]
pub enum ArrayName {
    // numbers that may be no order: the library refuses those
    Transpose(Vec<usize>),
    Difference,
}

// One from bytes to bytes.
#[derive(Clone, Copy)]
pub enum ByteName {
    // a number that may be no element size, likewise
    Shuffle(usize),
    Fletcher32,
}

// A stage of any kind.
#[derive(Drop)]
pub enum StageName {
    ArrayToArray(ArrayName),
    // the byte order, if it has one
    ArrayToBytes(Option<Endianness>),
    BytesToBytes(ByteName),
}
