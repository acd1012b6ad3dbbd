// Bytes in lower-case hexadecimal, with `-` for no bytes.
// The digits stand here, since the crate `hex` reads upper-case ones too.
ghost use Rattle.std.specs.Prelude.{◌≡◌, ◌<◌, ◌++◌, is_ok, IfOk, if◌then◌else◌, vec_items};
ghost use Rattle.std.specs.Option.{option_map};
ghost use Rattle.text.specs.Hex.{hex_digit, hex_value, byte_of, hex_bytes, hex_of, hex_parsed, ReadsBack, OnlyPrinted};

use std::alloc::{AllocError, Global};

// The digit with a value below 16; `char::from_digit` gives an Option of a `char`, to be unwrapped and cast.
fn digit(value: u8) -> u8
    requires { value < 16 }
    ensures { result ≡ hex_digit value }
{
    if value < 10 {
        b'0' + value
    } else {
        b'a' + (value - 10)
    }
}

// The value of a digit; an upper-case letter, which `to_digit` takes, is none.
fn value(digit: u8) -> Option<u8>
    ensures { result ≡ hex_value digit }
{
    match digit {
        b'0'..=b'9' => Some(digit - b'0'),
        b'a'..=b'f' => Some(digit - b'a' + 10),
        _ => None,
    }
}

// The byte that two digits write.
fn byte(high: u8, low: u8) -> Option<u8>
    ensures { result ≡ byte_of (hex_value high) (hex_value low) }
{
    Some(16 * value(high)? + value(low)?)
}

// Adds the bytes in hexadecimal; without memory for that it adds nothing. By hand: through a formatter it took eight times as
// long.
pub fn push_hex(out: &mut Vec<u8>, bytes: &[u8]) -> Result<(), AllocError>
    ensures { out.new.items ≡ (if is_ok result then out.old.items ++ hex_of bytes.now else out.old.items) }
{
    if bytes.is_empty() {
        out.push(b'-')?;
        return Ok(());
    }
    out.reserve(bytes.len().checked_mul(2).ok_or(AllocError)?)?;
    for b in bytes {
        out.push_reserved(digit(*b / 16));
        out.push_reserved(digit(*b % 16));
    }
    Ok(())
}

// The bytes that pairs of digits write. By a slice pattern, as the definition goes: `chunks_exact` would take each pair apart by
// index and leave a last digit to be looked for. The Option is as in `parse_hex`.
fn pairs(heap: Global, word: &[u8]) -> Result<Option<Vec<u8>>, AllocError>
    ensures { IfOk result (λ o. option_map vec_items o ≡ hex_bytes word.now) }
{
    let mut bytes = Vec::with_capacity(heap, word.len() / 2)?;
    let mut left = word;
    while let [high, low, rest @ ..] = left {
        let Some(b) = byte(*high, *low) else {
            return Ok(None);
        };
        bytes.push(b)?;
        left = rest;
    }
    Ok(left.is_empty().then_some(bytes))
}

// The bytes that a word writes, or None where it is not what `push_hex` writes of any bytes. An Option inside, and no error enum:
// callers have words of their own for such a word, and memory is std's error.
pub fn parse_hex(heap: Global, word: &[u8]) -> Result<Option<Vec<u8>>, AllocError>
    ensures { IfOk result (λ o. option_map vec_items o ≡ hex_parsed word.now) }
{
    match word {
        b"-" => Ok(Some(Vec::new(heap))),
        b"" => Ok(None),
        _ => pairs(heap, word),
    }
}

// What is printed is read back, and nothing else is read.
pub fn hex_stands()
    ensures back { ReadsBack }
    ensures only { OnlyPrinted }
{}
