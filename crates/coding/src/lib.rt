// The calls of any codec from an input into an output, by way of two work buffers. All four are slices, since nothing here
// allocates; `buffers` keeps the last three together where there is a heap.
#![tactic(auto)]

ghost use Rattle.std.specs.Prelude.{◌≡◌, length};
ghost use Rattle.form.specs.Refusals.{told};
ghost use Rattle.stage.specs.Stage.{Laws, Unfailing};
ghost use Rattle.stage.specs.Arrays.{ArrayLaws, ArrayToBytesLaws};
ghost use Rattle.stage.specs.Calls.{encode_answer, undo_answer, written};

use form::fault::Fault;
use stage::array_to_array::ArrayToArrayCodec;
use stage::array_to_bytes::ArrayToBytesCodec;
use stage::codec::{Codec, Representation};
use stage::room::room;

// Every codec keeps the laws of a stage.
pub fn laws_hold<C: Codec>(codec: &C)
    ensures { Laws C.Decoded.Representation.weight C.Encoded.Representation.weight (C.Codec.meaning codec.now) }
{}

// Every codec from arrays to arrays keeps the data type, the count of elements and the fill value, refuses a form with 9 or not
// at all, and is never refused with 15.
pub fn array_laws_hold<C: ArrayToArrayCodec>(codec: &C)
    ensures kept { ArrayLaws (C.Codec.meaning codec.now) }
    ensures unfailing { Unfailing (C.Codec.meaning codec.now) }
{}

// Every codec from arrays to bytes refuses a form with 9 or 10 or not at all, and is never refused with 15.
pub fn array_to_bytes_laws_hold<C: ArrayToBytesCodec>(codec: &C)
    ensures kept { ArrayToBytesLaws (C.Codec.meaning codec.now) }
    ensures unfailing { Unfailing (C.Codec.meaning codec.now) }
{}

// Encodes the input, an array or bytes of the form, into the front of the output, and answers how many bytes that are.
// What the work buffers hold afterwards is not said.
pub fn encode<C: Codec>(
    codec: &C,
    form: &C::Decoded,
    input: &[u8],
    output: &mut [u8],
    work: &mut [u8],
    scratch: &mut [u8],
) -> Result<usize, Fault>
    ensures answer { told result ≡ encode_answer C.Decoded.Representation.weight (C.Codec.meaning codec.now) form.now input.now (length output.old) (length work.old) (length scratch.old) }
    ensures bytes { output.new ≡ written result ((C.Codec.meaning codec.now).encoded form.now input.now) output.old }
{
    let coded = codec.coded(form)?;
    if input.len() != form.bytes() {
        return Err(Fault::Length);
    }
    let count = coded.bytes();
    if count > output.len() {
        return Err(Fault::BufferShort);
    }
    room(work, scratch)?;
    work[..input.len()].copy_from_slice(input);
    codec.encode(form, work, scratch)?;
    output[..count].copy_from_slice(&work[..count]);
    Ok(count)
}

// Undoes the input, the bytes at the place `from`, to the place `to`, into the front of the output, and answers how many
// bytes that are. What the work buffers hold afterwards is not said.
pub fn undo<C: Codec>(
    codec: &C,
    form: &C::Decoded,
    from: usize,
    to: usize,
    checks: bool,
    input: &[u8],
    output: &mut [u8],
    work: &mut [u8],
    scratch: &mut [u8],
) -> Result<usize, Fault>
    ensures answer { told result ≡ undo_answer C.Decoded.Representation.weight (C.Codec.meaning codec.now) form.now from to checks input.now (length output.old) (length work.old) (length scratch.old) }
    ensures bytes { output.new ≡ written result ((C.Codec.meaning codec.now).undone form.now from to input.now) output.old }
{
    let before = codec.size(form, from)?;
    let count = codec.size(form, to)?;
    if from > to || input.len() != before {
        return Err(Fault::Length);
    }
    if count > output.len() {
        return Err(Fault::BufferShort);
    }
    room(work, scratch)?;
    work[..input.len()].copy_from_slice(input);
    let undone = codec.undo(form, from, to, checks, work, scratch)?;
    output[..undone].copy_from_slice(&work[..undone]);
    Ok(undone)
}
