// Decimal numbers without a sign.
ghost use Rattle.std.specs.Prelude.{◌≡◌, ℕ, ◌++◌, is_ok, if◌then◌else◌, decimal};
ghost use Rattle.text.specs.Number.{number_of, ReadsBack};

use crate::list::FromWord;
use std::alloc::{AllocError, Global};

// The number that a word of digits writes, if 64 bits hold it. It goes digit by digit and ends at the first byte that shows that
// the word is none: `from_str_radix` wants a `str`, whose test reads the whole word first.
pub fn parse_number(word: &[u8]) -> Option<u64>
    ensures { result ≡ number_of word.now }
{
    if word.is_empty() {
        return None;
    }
    let mut n: u64 = 0;
    for c in word {
        if !c.is_ascii_digit() {
            return None;
        }
        n = n.checked_mul(10)?.checked_add(u64::from(*c - b'0'))?;
    }
    Some(n)
}

// The same of a size, which 64 bits hold too.
pub fn parse_size(word: &[u8]) -> Option<usize>
    ensures { result ≡ number_of word.now }
{
    Some(parse_number(word)? as usize)
}

impl FromWord for usize {
    ghost Said = { ℕ };

    ghost said = { λ n. n };

    ghost says = { number_of };

    fn from_word(_heap: Global, word: &[u8]) -> Result<Option<usize>, AllocError> {
        Ok(parse_size(word))
    }
}

// Adds the digits of a number; without memory for that it adds nothing, which is why `format!` makes them apart first. The
// allocator and the text come one by one, as in std's functions.
pub fn push_number(heap: Global, out: &mut Vec<u8>, n: u64) -> Result<(), AllocError>
    ensures { out.new.items ≡ (if is_ok result then out.old.items ++ decimal n else out.old.items) }
{
    let digits = format!(in heap; "{n}")?;
    out.extend_from_slice(digits.as_bytes())
}

// What is written of a number is read back.
pub fn number_stands()
    ensures { ReadsBack }
{}
