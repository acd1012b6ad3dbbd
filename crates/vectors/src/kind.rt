// The kinds of vectors, and how many of each were equal.
ghost use Rattle.std.specs.Prelude.{◌≡◌, ◌≢◌, Some, codes};
ghost use Rattle.vectors.specs.Kind.{kind_name, Named};
ghost use Rattle.vectors.specs.Tally.{count_of, no_count, one_more, count_text};

use std::error::Error;
use std::fmt;

#[derive(Clone, Copy, Debug, PartialEq, Eq)]
pub enum Kind {
    // shuffled bytes
    Shuffle,
    // a length that is no multiple of the element size
    ShuffleRefuse,
    // the four bytes of a checksum
    ChecksumFunction,
    // the chunk of a file with checksums
    ChecksumFile,
    // such a chunk, damaged
    ChecksumFileBad,
    // a chunk that was shuffled, and then given a checksum
    ShuffleChecksum,
    // a chunk that was given a checksum, and then shuffled
    ChecksumShuffle,
    // an array with its axes in another order
    Transpose,
    // an array with each element less the one before it
    Difference,
    // an array with the most significant byte of each element first
    BytesBig,
    // an array that a chain of stages encoded
    Chain,
}

pub const KINDS: [Kind; 11] = [
    Kind::Shuffle,
    Kind::ShuffleRefuse,
    Kind::ChecksumFunction,
    Kind::ChecksumFile,
    Kind::ChecksumFileBad,
    Kind::ShuffleChecksum,
    Kind::ChecksumShuffle,
    Kind::Transpose,
    Kind::Difference,
    Kind::BytesBig,
    Kind::Chain,
];

impl Kind {
    fn name(self) -> &'static str
        ensures { result.now ≡ kind_name self }
    {
        match self {
            Kind::Shuffle => "shuffle",
            Kind::ShuffleRefuse => "shuffle-refuse",
            Kind::ChecksumFunction => "fletcher32-h5func",
            Kind::ChecksumFile => "fletcher32-hdf5",
            Kind::ChecksumFileBad => "fletcher32-hdf5-bad",
            Kind::ShuffleChecksum => "hdf5-shuffle-fletcher",
            Kind::ChecksumShuffle => "hdf5-fletcher-shuffle",
            Kind::Transpose => "transpose",
            Kind::Difference => "difference",
            Kind::BytesBig => "bytes-big",
            Kind::Chain => "chain",
        }
    }
}

impl fmt::Display for Kind {
    ghost output = { λ kind. Some (kind_name kind) };

    fn fmt<W: fmt::Write>(&self, f: &mut fmt::Formatter<W>) -> fmt::Result {
        f.write_str(self.name())
    }
}

// A word that names no kind.
#[derive(Clone, Copy, Debug, PartialEq, Eq)]
pub struct UnknownKind;

impl fmt::Display for UnknownKind {
    ghost output = { λ _. Some (codes "no kind of vector") };

    fn fmt<W: fmt::Write>(&self, f: &mut fmt::Formatter<W>) -> fmt::Result {
        f.write_str("no kind of vector")
    }
}

impl Error for UnknownKind {}

impl TryFrom<&[u8]> for Kind {
    type Error = UnknownKind;

    ghost try_from_gives = { λ word r. Named word.now r };

    fn try_from(word: &[u8]) -> Result<Kind, UnknownKind> {
        KINDS
            .iter()
            .find(|kind| kind.name().as_bytes() == word)
            .copied()
            .ok_or(UnknownKind)
    }
}

// How many vectors were equal, and how many differed.
#[derive(Clone, Copy, Debug, Default, PartialEq, Eq)]
pub struct Count {
    pub equal: u64,
    pub differ: u64,
}

impl fmt::Display for Count {
    ghost output = { λ count. Some (count_text count) };

    fn fmt<W: fmt::Write>(&self, f: &mut fmt::Formatter<W>) -> fmt::Result {
        write!(f, "{} equal, {} differ", self.equal, self.differ)
    }
}

// A count for each kind, at the place of the kind; a map could run out of memory, and `count` cannot fail.
#[derive(Clone, Copy)]
pub struct Tally {
    counts: [Count; 11],
}

impl Tally {
    pub fn new() -> Tally
        ensures { (kind : _) → count_of result kind ≡ no_count }
    {
        Tally {
            counts: [Count::default(); 11],
        }
    }

    pub fn count(&mut self, kind: Kind, equal: bool)
        ensures counted { count_of self.new kind ≡ one_more equal (count_of self.old kind) }
        ensures others { (k : _) → k ≢ kind → count_of self.new k ≡ count_of self.old k }
    {
        let count = &mut self.counts[kind as usize];
        if equal {
            count.equal = count.equal.saturating_add(1);
        } else {
            count.differ = count.differ.saturating_add(1);
        }
    }

    pub fn of(&self, kind: Kind) -> Count
        ensures { result ≡ count_of self.now kind }
    {
        self.counts[kind as usize]
    }
}
