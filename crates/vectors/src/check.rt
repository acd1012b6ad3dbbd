// Runs a vector through the library. The buffers, the codec and the form are lent one by one: the first serve every vector, the
// others one.
ghost use Rattle.vectors.specs.Lengths.{SameLengths};

use crate::kind::Kind;
use crate::params::Params;
use crate::vector::Vector;
use array_codecs::array_codec::{self, ArrayCodec};
use base_codecs::single::Single;
use buffers::Buffers;
use byte_codecs::byte_codec::{self, ByteCodec};
use bytes_codec::bytes_codec::{BytesCodec, Endianness};
use chain_draft::sealing::FittedSealedChain;
use difference::difference_codec::DifferenceCodec;
use fletcher32::fletcher32_codec::Fletcher32Codec;
use form::array_form::Form;
use form::data_type::DataType;
use form::fault::Fault;
use form::settings::Settings;
use pair::Pair;
use shuffle::shuffle_codec::ShuffleCodec;
use stage::codec::Codec;
use stage_names::drafting::chain_of;
use transpose::transpose_codec::TransposeCodec;

// What the output is filled with before a call, so that none passes for what an earlier one left.
const FRESH: u8 = 0xee;

// Undoes all singles into the output, with checks on.
fn undo_all<C: Codec>(
    buffers: &mut Buffers,
    codec: &C,
    form: &C::Decoded,
    input: &[u8],
) -> Result<usize, Fault>
    ensures { SameLengths buffers.old buffers.new }
{
    let singles = codec.singles().ok_or(Fault::Length)?;
    buffers.undo(codec, form, 0, singles, true, input)
}

// Whether a call left just these bytes in the output.
fn output_is(buffers: &Buffers, count: Result<usize, Fault>, bytes: &[u8]) -> bool {
    matches!(count, Ok(n) if buffers.output.as_slice().get(..n) == Some(bytes))
}

fn shuffle(size: usize) -> Result<ByteCodec, Fault> {
    Ok(byte_codec::shuffle(ShuffleCodec::new(size)?))
}

fn transpose(order: &[usize]) -> Result<ArrayCodec, Fault> {
    Ok(array_codec::transpose(TransposeCodec::new(order)?))
}

// The form of an array with fill value 0.
fn array_form(shape: &[usize], code: usize) -> Result<Form, Fault> {
    let fill = [0; 8];
    let size = DataType::try_from(code)?.size();
    Form::new(shape, code, &fill[..size])
}

// The same of an array of one dimension that has so many bytes.
fn row_form(bytes: usize, code: usize) -> Result<Form, Fault> {
    let size = DataType::try_from(code)?.size();
    array_form(&[bytes / size], code)
}

// Whether the input is encoded to the peer's output, and this is undone to the input.
fn both_ways<C: Codec>(buffers: &mut Buffers, vector: &Vector, codec: &C, form: &C::Decoded) -> bool
    ensures { SameLengths buffers.old buffers.new }
{
    let Some(output) = &vector.output else {
        return false;
    };
    let input = vector.input.as_slice();
    buffers.output.fill(FRESH);
    let count = buffers.encode(codec, form, input);
    if !output_is(buffers, count, output.as_slice()) {
        return false;
    }
    buffers.output.fill(FRESH);
    let count = undo_all(buffers, codec, form, output.as_slice());
    output_is(buffers, count, input)
}

// Whether the chain encodes an array to just these bytes.
fn encodes(buffers: &mut Buffers, chain: &FittedSealedChain, array: &[u8], encoded: &[u8]) -> bool
    ensures { SameLengths buffers.old buffers.new }
{
    buffers.output.fill(FRESH);
    let count = chain.encode(
        array,
        buffers.output.as_mut_slice(),
        buffers.work.as_mut_slice(),
        buffers.scratch.as_mut_slice(),
    );
    output_is(buffers, count, encoded)
}

// Whether the chain decodes bytes to just this array.
fn decodes(
    buffers: &mut Buffers,
    chain: &FittedSealedChain,
    checks: bool,
    encoded: &[u8],
    array: &[u8],
) -> bool
    ensures { SameLengths buffers.old buffers.new }
{
    buffers.output.fill(FRESH);
    let count = chain.decode(
        &Settings { checks },
        encoded,
        buffers.output.as_mut_slice(),
        buffers.work.as_mut_slice(),
        buffers.scratch.as_mut_slice(),
    );
    output_is(buffers, count, array)
}

// Whether the chain encodes the input to the peer's output, and decodes this to the input, with checks on and off.
fn chain_both_ways(buffers: &mut Buffers, vector: &Vector, chain: &FittedSealedChain) -> bool
    ensures { SameLengths buffers.old buffers.new }
{
    let Some(output) = &vector.output else {
        return false;
    };
    let array = vector.input.as_slice();
    let encoded = output.as_slice();
    encodes(buffers, chain, array, encoded)
        && decodes(buffers, chain, true, encoded, array)
        && decodes(buffers, chain, false, encoded, array)
}

// Whether the shuffle refuses the length, as the peer does.
fn refuses_length(buffers: &mut Buffers, vector: &Vector, shuffle: &ByteCodec) -> bool
    ensures { SameLengths buffers.old buffers.new }
{
    let input = vector.input.as_slice();
    let count = buffers.encode(shuffle, &input.len(), input);
    vector.output.is_none() && matches!(count, Err(Fault::Multiple))
}

// Whether the checksum that is stored after the input is the peer's.
fn stored_checksum(buffers: &mut Buffers, vector: &Vector, checksum: &ByteCodec) -> bool
    ensures { SameLengths buffers.old buffers.new }
{
    let Some(output) = &vector.output else {
        return false;
    };
    let input = vector.input.as_slice();
    let count = buffers.encode(checksum, &input.len(), input);
    matches!(count, Ok(n) if buffers.output.as_slice().get(input.len()..n) == Some(output.as_slice()))
}

// Whether the checksum does not fit the data before it, which the peer finds too.
fn finds_damage(buffers: &mut Buffers, vector: &Vector, checksum: &ByteCodec) -> bool
    ensures { SameLengths buffers.old buffers.new }
{
    let input = vector.input.as_slice();
    let decoded = input.len().saturating_sub(4);
    let undone = undo_all(buffers, checksum, &decoded, input);
    vector.output.is_none() && matches!(undone, Err(Fault::Checksum(0)))
}

// Whether the vector agrees, or why the library takes no such codec or form. Parameters of another kind agree with nothing.
fn run(buffers: &mut Buffers, vector: &Vector) -> Result<bool, Fault>
    ensures { SameLengths buffers.old buffers.new }
{
    let bytes = vector.input.len();
    let checksum = byte_codec::fletcher32(Fletcher32Codec::new());
    let equal = match (vector.kind, &vector.params) {
        (Kind::Shuffle, Params::ElementSize(size)) => {
            both_ways(buffers, vector, &shuffle(*size)?, &bytes)
        }
        (Kind::ShuffleRefuse, Params::ElementSize(size)) => {
            refuses_length(buffers, vector, &shuffle(*size)?)
        }
        (Kind::ChecksumFunction, Params::Nothing) => stored_checksum(buffers, vector, &checksum),
        (Kind::ChecksumFile, Params::Nothing) => both_ways(buffers, vector, &checksum, &bytes),
        (Kind::ChecksumFileBad, Params::Nothing) => finds_damage(buffers, vector, &checksum),
        (Kind::ShuffleChecksum, Params::ElementSize(size)) => {
            let stages = Pair::new(checksum, shuffle(*size)?);
            both_ways(buffers, vector, &stages, &bytes)
        }
        (Kind::ChecksumShuffle, Params::ElementSize(size)) => {
            let stages = Pair::new(shuffle(*size)?, checksum);
            both_ways(buffers, vector, &stages, &bytes)
        }
        (Kind::Transpose, Params::Axes { code, shape, order }) => {
            let form = array_form(shape.as_slice(), *code)?;
            both_ways(buffers, vector, &transpose(order.as_slice())?, &form)
        }
        (Kind::Difference, Params::DataType(code)) => {
            let codec = array_codec::difference(DifferenceCodec::new());
            both_ways(buffers, vector, &codec, &row_form(bytes, *code)?)
        }
        (Kind::BytesBig, Params::DataType(code)) => {
            let codec = Single::new(BytesCodec::new(Some(Endianness::Big)));
            both_ways(buffers, vector, &codec, &row_form(bytes, *code)?)
        }
        (
            Kind::Chain,
            Params::Stages {
                code,
                shape,
                stages,
            },
        ) => {
            let form = array_form(shape.as_slice(), *code)?;
            chain_both_ways(buffers, vector, &chain_of(stages.as_slice(), &form)?)
        }
        _ => false,
    };
    Ok(equal)
}

// Whether the library does what the peer does. The buffers keep their lengths for the next vector. A codec or a form that is
// refused agrees with nothing.
pub fn agrees(buffers: &mut Buffers, vector: &Vector) -> bool
    ensures { SameLengths buffers.old buffers.new }
{
    run(buffers, vector).unwrap_or(false)
}
