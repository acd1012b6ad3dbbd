// How a word says a stage: `transpose:ORDER`, `difference`, `bytes:` and a byte order or `none`, `shuffle:SIZE` or `fletcher32`.
ghost use Rattle.std.specs.Prelude.{◌≡◌, map, IfOk, vec_items};
ghost use Rattle.std.specs.Option.{option_map};
ghost use Rattle.stage_names.specs.Names.{SaidStage, said_stage, said_array, said_byte, array_of, endian_of, byte_of, stage_of, stages_of, StageWords};

use crate::name::{ArrayName, ByteName, StageName};
use bytes_codec::bytes_codec::Endianness;
use std::alloc::{AllocError, Global};
use text::list::{FromWord, parse_list};
use text::number::parse_size;

// `difference`, or `transpose:` and numbers that commas join.
fn array_name(heap: Global, word: &[u8]) -> Result<Option<ArrayName>, AllocError>
    ensures { IfOk result (λ o. option_map said_array o ≡ array_of word.now) }
{
    if word == b"difference".as_slice() {
        return Ok(Some(ArrayName::Difference));
    }
    let Some(order) = word.strip_prefix(b"transpose:") else {
        return Ok(None);
    };
    let order = parse_list(heap, order, b',')?;
    Ok(order.map(ArrayName::Transpose))
}

// A byte order, or none: the inner Option is the codec's own.
fn endianness(word: &[u8]) -> Option<Option<Endianness>>
    ensures { result ≡ endian_of word.now }
{
    match word {
        b"little" => Some(Some(Endianness::Little)),
        b"big" => Some(Some(Endianness::Big)),
        b"none" => Some(None),
        _ => None,
    }
}

// `fletcher32`, or `shuffle:` and a number.
fn byte_name(word: &[u8]) -> Option<ByteName>
    ensures { option_map said_byte result ≡ byte_of word.now }
{
    if word == b"fletcher32".as_slice() {
        return Some(ByteName::Fletcher32);
    }
    let size = parse_size(word.strip_prefix(b"shuffle:")?)?;
    Some(ByteName::Shuffle(size))
}

impl FromWord for StageName {
    ghost Said = { SaidStage };

    ghost said = { said_stage };

    ghost says = { stage_of };

    fn from_word(heap: Global, word: &[u8]) -> Result<Option<StageName>, AllocError> {
        if let Some(endian) = word.strip_prefix(b"bytes:") {
            return Ok(endianness(endian).map(StageName::ArrayToBytes));
        }
        if let Some(name) = byte_name(word) {
            return Ok(Some(StageName::BytesToBytes(name)));
        }
        let name = array_name(heap, word)?;
        Ok(name.map(StageName::ArrayToArray))
    }
}

// The stages that a word says, joined by `+`, with `-` for none, or None where some part says none.
pub fn parse_stages(heap: Global, word: &[u8]) -> Result<Option<Vec<StageName>>, AllocError>
    ensures { IfOk result (λ o. option_map (λ v. map said_stage (vec_items v)) o ≡ stages_of word.now) }
{
    parse_list(heap, word, b'+')
}

// Which words are read as a stage.
pub fn stage_words_stand()
    ensures { StageWords }
{}
