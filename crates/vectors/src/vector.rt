// How a line says a vector.
ghost use Rattle.std.specs.Prelude.{◌≡◌, [], ◌∷◌, Some, None, IfOk, IfSome, IsErrOf, is_none, codes, vec_items};
ghost use Rattle.std.specs.Option.{option_map};
ghost use Rattle.std.specs.Str.{bytes_eq};
ghost use Rattle.text.specs.Hex.{hex_parsed};
ghost use Rattle.vectors.specs.Line.{error_text, is_comment, SplitsInto, SaysVector};
ghost use Rattle.vectors.specs.declared.vector.ParseError.TheVariants.{Malformed, OutOfMemory};

use crate::kind::{Kind, UnknownKind};
use crate::params::{Params, parse_params};
use std::alloc::{AllocError, Global};
use std::error::Error;
use std::fmt;
use text::hex::parse_hex;
use text::words::next_word;

#[derive(Drop)]
pub struct Vector {
    pub kind: Kind,
    pub params: Params,
    pub input: Vec<u8>,
    // what the peer gives, or None where it refuses
    pub output: Option<Vec<u8>>,
}

#[derive(Clone, Copy, Debug, PartialEq, Eq)]
pub enum ParseError {
    Malformed,
    OutOfMemory,
}

impl fmt::Display for ParseError {
    ghost output = { λ error. Some (error_text error) };

    fn fmt<W: fmt::Write>(&self, f: &mut fmt::Formatter<W>) -> fmt::Result {
        f.write_str(match self {
            ParseError::Malformed => "no vector",
            ParseError::OutOfMemory => "out of memory",
        })
    }
}

impl Error for ParseError {}

impl From<AllocError> for ParseError {
    ghost from_gives = { λ _ error. error ≡ OutOfMemory };

    fn from(_error: AllocError) -> ParseError {
        Self::OutOfMemory
    }
}

impl From<UnknownKind> for ParseError {
    ghost from_gives = { λ _ error. error ≡ Malformed };

    fn from(_error: UnknownKind) -> ParseError {
        Self::Malformed
    }
}

// The first four of the five words of a line; an array of them in an Option gets no proof.
#[derive(Clone, Copy)]
struct Fields<'a> {
    kind: &'a [u8],
    params: &'a [u8],
    input: &'a [u8],
    output: &'a [u8],
}

// What a line of five words has, or None of another line.
fn words(line: &[u8]) -> Option<Fields<'_>>
    ensures { IfSome result (λ f. (peer : _) × SplitsInto line.now (f.kind.now ∷ f.params.now ∷ f.input.now ∷ f.output.now ∷ peer ∷ [])) }
{
    let (kind, rest) = next_word(line)?;
    let (params, rest) = next_word(rest)?;
    let (input, rest) = next_word(rest)?;
    let (output, rest) = next_word(rest)?;
    let (_peer, rest) = next_word(rest)?;
    if next_word(rest).is_some() {
        return None;
    }
    Some(Fields {
        kind,
        params,
        input,
        output,
    })
}

// `!` says that the peer refuses.
fn expected(heap: Global, word: &[u8]) -> Result<Option<Vec<u8>>, ParseError>
    ensures bytes { IfOk result (λ o. option_map vec_items o ≡ hex_parsed word.now) }
    ensures refused { IfOk result (λ o. is_none o ≡ bytes_eq word.now (codes "!")) }
    ensures malformed { IsErrOf result ParseError.Malformed → hex_parsed word.now ≡ None }
{
    if word == b"!".as_slice() {
        return Ok(None);
    }
    let bytes = parse_hex(heap, word)?.ok_or(ParseError::Malformed)?;
    Ok(Some(bytes))
}

// The vector that a line says, or None of an empty line or one that begins with #.
pub fn parse(heap: Global, line: &[u8]) -> Result<Option<Vector>, ParseError>
    ensures comment { IfOk result (λ vector. is_none vector ≡ is_comment line.now) }
    ensures said { IfOk result (λ o. IfSome o (λ vector. SaysVector line.now vector)) }
{
    if matches!(line, [] | [b'#', ..]) {
        return Ok(None);
    }
    let fields = words(line).ok_or(ParseError::Malformed)?;
    let kind = Kind::try_from(fields.kind)?;
    let params = parse_params(heap, fields.params)?;
    let params = params.ok_or(ParseError::Malformed)?;
    let input = parse_hex(heap, fields.input)?;
    let input = input.ok_or(ParseError::Malformed)?;
    let output = expected(heap, fields.output)?;
    Ok(Some(Vector {
        kind,
        params,
        input,
        output,
    }))
}
