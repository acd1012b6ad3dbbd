// What is kept, as it is answered.

#[derive(Clone, Copy, Debug, PartialEq, Eq)]
pub enum Cached {
    // every single can read and decode parts, so that nothing is kept
    NoPlace,
    // the cell is absent
    Absent,
    // so many bytes
    Bytes(usize),
}
