// The parameters of a vector: `NAME=VALUE` pairs that semicolons join, or `-`.
ghost use Rattle.std.specs.Prelude.{◌≡◌, map, IfOk, vec_items};
ghost use Rattle.std.specs.Option.{option_map};
ghost use Rattle.stage_names.specs.Names.{said_stage};
ghost use Rattle.vectors.specs.Params.{number_behind, numbers_behind, stages_behind, one_of, array_of, params_of, said};

use stage_names::name::StageName;
use stage_names::word::parse_stages;
use std::alloc::{AllocError, Global};
use text::list::{parse_list, parts};
use text::number::parse_size;

#[derive(Drop)]
pub enum Params {
    // `-`
    Nothing,
    // `e=SIZE`
    ElementSize(usize),
    // `type=CODE`, of an array with one dimension
    DataType(usize),
    // `type=CODE;shape=LENGTHS;order=AXES`
    Axes {
        code: usize,
        shape: Vec<usize>,
        order: Vec<usize>,
    },
    // `type=CODE;shape=LENGTHS;stages=STAGES`
    Stages {
        code: usize,
        shape: Vec<usize>,
        stages: Vec<StageName>,
    },
}

// The number behind the front of a pair.
fn number(pair: &[u8], front: &[u8]) -> Option<usize>
    ensures { result ≡ number_behind front.now pair.now }
{
    parse_size(pair.strip_prefix(front)?)
}

// The numbers behind the front of a pair.
fn numbers(
    heap: Global,
    pair: &[u8],
    front: &[u8],
    separator: u8,
) -> Result<Option<Vec<usize>>, AllocError>
    ensures { IfOk result (λ o. option_map vec_items o ≡ numbers_behind front.now separator pair.now) }
{
    let Some(list) = pair.strip_prefix(front) else {
        return Ok(None);
    };
    parse_list(heap, list, separator)
}

// The stages of a pair.
fn stages(heap: Global, pair: &[u8]) -> Result<Option<Vec<StageName>>, AllocError>
    ensures { IfOk result (λ o. option_map (λ v. map said_stage (vec_items v)) o ≡ stages_behind pair.now) }
{
    let Some(list) = pair.strip_prefix(b"stages=") else {
        return Ok(None);
    };
    parse_stages(heap, list)
}

// What a lone pair says.
fn parse_one(pair: &[u8]) -> Option<Params>
    ensures { option_map said result ≡ one_of pair.now }
{
    if pair == b"-".as_slice() {
        return Some(Params::Nothing);
    }
    if let Some(size) = number(pair, b"e=") {
        return Some(Params::ElementSize(size));
    }
    let code = number(pair, b"type=")?;
    Some(Params::DataType(code))
}

// What the two pairs of an array say, with one of an order of its axes or of stages.
fn parse_array(
    heap: Global,
    code: &[u8],
    shape: &[u8],
    coding: &[u8],
) -> Result<Option<Params>, AllocError>
    ensures { IfOk result (λ o. option_map said o ≡ array_of code.now shape.now coding.now) }
{
    let Some(code) = number(code, b"type=") else {
        return Ok(None);
    };
    let Some(shape) = numbers(heap, shape, b"shape=", b'x')? else {
        return Ok(None);
    };
    if let Some(order) = numbers(heap, coding, b"order=", b',')? {
        return Ok(Some(Params::Axes { code, shape, order }));
    }
    let stages = stages(heap, coding)?;
    Ok(stages.map(|stages| Params::Stages {
        code,
        shape,
        stages,
    }))
}

// What a word of parameters says, or None where it says nothing that a vector has.
pub fn parse_params(heap: Global, word: &[u8]) -> Result<Option<Params>, AllocError>
    ensures { IfOk result (λ o. option_map said o ≡ params_of word.now) }
{
    match parts(heap, word, b';')?.as_slice() {
        [pair] => Ok(parse_one(pair)),
        [code, shape, coding] => parse_array(heap, code, shape, coding),
        _ => Ok(None),
    }
}
