// Calls on an open chunk, made in the order of a list, with a record of what each answered.
ghost use Rattle.std.specs.Prelude.{◌≡◌, ◌≤◌, ℕ, List, [], length, take, drop, nat_le, None, Some, Ok, IfOk, OnOk, OnErr};
ghost use Rattle.form.specs.Refusals.{told, only_if};
ghost use Rattle.chunks.specs.Views.{View, chained};
ghost use Rattle.chunks.specs.Histories.{Carried, History, Law};
ghost use Rattle.chunks.specs.Replays.{answered, call_event, events, opened, used, used_by, AllRefused, Always, Makes, OpenedAndMade, Packed, Rewrites, Run};
ghost use Rattle.chunks.specs.Seen.{coder, seen};

use crate::call::{Answer, Call, Recorded};
use crate::open_chunk::OpenChunk;
use cells::cell::Cell;
use codec_chain::fitted_chain::FittedChain;
use form::fault::Fault;
use stage::array_to_array::ArrayToArrayCodec;
use stage::array_to_bytes::ArrayToBytesCodec;
use stage::codec::Codec;

// Makes one call, with its bytes at the front of the output.
pub(crate) fn perform<
    A: ArrayToArrayCodec + Drop,
    B: ArrayToBytesCodec + Drop,
    S: Codec<Decoded = usize, Encoded = usize> + Drop,
    C: Cell + Drop,
>(
    chunk: &mut OpenChunk<A, B, S, C>,
    call: &Call<'_>,
    output: &mut [u8],
    work: &mut [u8],
    scratch: &mut [u8],
) -> Answer
    ensures carried { Carried (seen chunk.old) (call_event call.now (length output.old) (length work.old) (length scratch.old) (answered result output.new)) (seen chunk.new) }
    ensures cell { Rewrites C.Cell.rewritten ((chained (seen chunk.old).coder).size chunk.old.chain.form 0) chunk.old.cell (call_event call.now (length output.old) (length work.old) (length scratch.old) (answered result output.new)) chunk.new.cell }
    ensures chain { chunk.new.chain ≡ chunk.old.chain }
    ensures fits { used result ≤ length output.old }
    ensures rest { drop (used result) output.new ≡ drop (used result) output.old }
{
    match call {
        Call::ReadSubset(subset) => match chunk.read_subset(subset, output, work, scratch) {
            Ok(count) => Answer::Bytes(count),
            Err(e) => Answer::Refused(e),
        },
        Call::ReadRange(range) => match chunk.read_range(*range, output, work, scratch) {
            Ok(count) => Answer::Bytes(count),
            Err(e) => Answer::Refused(e),
        },
        Call::Cached => match chunk.cached(output) {
            Ok(kept) => Answer::Cached(kept),
            Err(e) => Answer::Refused(e),
        },
        Call::WriteSubset(subset, elements) => {
            match chunk.write_subset(subset, elements, work, scratch) {
                Ok(()) => Answer::Done,
                Err(e) => Answer::Refused(e),
            }
        }
        Call::Erase => match chunk.erase() {
            Ok(()) => Answer::Done,
            Err(e) => Answer::Refused(e),
        },
    }
}

// Makes each call of a list in its order, on what is left of the output, and records what it answered. Answers how many bytes of the
// output the answers have; 14 where there are fewer records than calls. What the work buffers hold afterwards is not said.
pub fn replay<
    A: ArrayToArrayCodec + Drop,
    B: ArrayToBytesCodec + Drop,
    S: Codec<Decoded = usize, Encoded = usize> + Drop,
    C: Cell + Drop,
>(
    chunk: &mut OpenChunk<A, B, S, C>,
    calls: &[Call<'_>],
    answers: &mut [Recorded],
    output: &mut [u8],
    work: &mut [u8],
    scratch: &mut [u8],
) -> Result<usize, Fault>
    ensures answer { told result ≡ only_if (nat_le (length calls.now) (length answers.old)) 14 (Ok (used_by (take (length calls.now) answers.new))) }
    ensures same { OnErr result ((chunk.new ≡ chunk.old) × (answers.new ≡ answers.old) × (output.new ≡ output.old)) }
    ensures chain { chunk.new.chain ≡ chunk.old.chain }
    ensures packed { OnOk result (Packed 0 (take (length calls.now) answers.new)) }
    ensures fits { IfOk result (λ n. n ≤ length output.old) }
    ensures answers_rest { drop (length calls.now) answers.new ≡ drop (length calls.now) answers.old }
    ensures output_rest { IfOk result (λ n. drop n output.new ≡ drop n output.old) }
    ensures runs { OnOk result (Run Makes chunk.old (events (length work.old) (length scratch.old) output.new calls.now answers.new) chunk.new) }
    ensures always { OnOk result ((o : View) (h : History) → Law o h (seen chunk.old) → Always o h chunk.old (events (length work.old) (length scratch.old) output.new calls.now answers.new) chunk.new) }
    ensures refused { OnOk result ((n : ℕ) → (seen chunk.old).shut ≡ Some n → AllRefused n (events (length work.old) (length scratch.old) output.new calls.now answers.new) × (seen chunk.new ≡ seen chunk.old) × (chunk.new.cell ≡ chunk.old.cell)) }
{
    if answers.len() < calls.len() {
        return Err(Fault::BufferShort);
    }
    let mut from = 0;
    for (i, call) in calls.iter().enumerate() {
        let answer = perform(chunk, call, &mut output[from..], work, scratch);
        answers[i] = Recorded { answer, from };
        from += answer.used();
    }
    Ok(from)
}

// Opens a chunk over a cell, and makes each call of a list on it. Where the opening is refused each call answers that refusal.
pub fn open_and_replay<
    A: ArrayToArrayCodec + Drop,
    B: ArrayToBytesCodec + Drop,
    S: Codec<Decoded = usize, Encoded = usize> + Drop,
    C: Cell + Drop,
>(
    chain: FittedChain<A, B, S>,
    cell: C,
    calls: &[Call<'_>],
    answers: &mut [Recorded],
    output: &mut [u8],
    work: &mut [u8],
    scratch: &mut [u8],
) -> (OpenChunk<A, B, S, C>, Result<usize, Fault>)
    ensures answer { told result.1 ≡ only_if (nat_le (length calls.now) (length answers.old)) 14 (Ok (used_by (take (length calls.now) answers.new))) }
    ensures same { OnErr result.1 ((seen result.0 ≡ opened (coder chain) (C.Cell.capacity cell) (C.Cell.value cell) (length work.old) (length scratch.old)) × (result.0.cell ≡ cell) × (answers.new ≡ answers.old) × (output.new ≡ output.old)) }
    ensures chain { result.0.chain ≡ chain }
    ensures packed { OnOk result.1 (Packed 0 (take (length calls.now) answers.new)) }
    ensures fits { IfOk result.1 (λ n. n ≤ length output.old) }
    ensures answers_rest { drop (length calls.now) answers.new ≡ drop (length calls.now) answers.old }
    ensures output_rest { IfOk result.1 (λ n. drop n output.new ≡ drop n output.old) }
    ensures law { OnOk result.1 (OpenedAndMade cell (opened (coder chain) (C.Cell.capacity cell) (C.Cell.value cell) (length work.old) (length scratch.old)) (events (length work.old) (length scratch.old) output.new calls.now answers.new) result.0) }
{
    let mut chunk = OpenChunk::open(chain, cell, work, scratch);
    let used = replay(&mut chunk, calls, answers, output, work, scratch);
    (chunk, used)
}
