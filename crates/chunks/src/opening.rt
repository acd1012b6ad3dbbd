// Opens a chunk, and closes it.
ghost use Rattle.std.specs.Prelude.{◌≡◌, ◌≤◌, true, [], length, Some, None, Ok};
ghost use Rattle.form.specs.Refusals.{told, unless};
ghost use Rattle.codec_chain.specs.Place.{cache_index};
ghost use Rattle.chunks.specs.Views.{View, chained, kept};
ghost use Rattle.chunks.specs.Caches.{cached_of};
ghost use Rattle.chunks.specs.Openings.{is_whole, open_refusal, opening};
ghost use Rattle.chunks.specs.Histories.{History, Law, cell};
ghost use Rattle.chunks.specs.Seen.{coder, number_of, seen};

use crate::cache::{Cache, Event};
use crate::in_place;
use crate::open_chunk::OpenChunk;
use cells::cell::Cell;
use codec_chain::fitted_chain::FittedChain;
use form::fault::Fault;
use stage::array_to_array::ArrayToArrayCodec;
use stage::array_to_bytes::ArrayToBytesCodec;
use stage::codec::Codec;
use stage::room::room;

// 16 where the cell cannot hold an encoding, 13 where it holds bytes of another length, 14 where a work buffer is short.
fn check<
    A: ArrayToArrayCodec + Drop,
    B: ArrayToBytesCodec + Drop,
    S: Codec<Decoded = usize, Encoded = usize> + Drop,
    C: Cell + Drop,
>(chain: &FittedChain<A, B, S>, cell: &C, work: &[u8], scratch: &[u8]) -> Result<(), Fault>
    ensures { told result ≡ unless (open_refusal (coder chain.now) (C.Cell.capacity cell.now) (C.Cell.value cell.now) (length work.now) (length scratch.now)) (Ok tt) }
{
    let encoded = chain.encoded_len();
    if cell.capacity() < encoded {
        return Err(Fault::Capacity);
    }
    if cell.length().is_some_and(|n| n != encoded) {
        return Err(Fault::Length);
    }
    room(work, scratch)
}

// What is kept of a cell's value: the value undone to the place, or absent with it.
fn kept_of<
    A: ArrayToArrayCodec + Drop,
    B: ArrayToBytesCodec + Drop,
    S: Codec<Decoded = usize, Encoded = usize> + Drop,
    C: Cell + Drop,
>(chain: &FittedChain<A, B, S>, cell: &C, work: &mut [u8], scratch: &mut [u8]) -> Cache
    requires whole { is_whole ((chained (coder chain.now)).size chain.now.form 0) (C.Cell.value cell.now) ≡ true }
    requires work { 4096 ≤ length work.old }
    requires scratch { 4096 ≤ length scratch.old }
    ensures { cached_of result ≡ kept (coder chain.now) (C.Cell.value cell.now) }
{
    let Some(place) = chain.chain().cache_index() else {
        return Cache::NoPlace;
    };
    let mut cache = Cache::Absent;
    if let Some(_) = in_place::load(cell, work) {
        let kept = in_place::undo(chain, 0, place, work, scratch);
        cache.note(Event::Write(&work[..kept]));
    }
    cache
}

impl<
    A: ArrayToArrayCodec + Drop,
    B: ArrayToBytesCodec + Drop,
    S: Codec<Decoded = usize, Encoded = usize> + Drop,
    C: Cell + Drop,
> OpenChunk<A, B, S, C> {
    // Opens a chunk over a cell, and fills what is kept, with checks off. Where that is refused the chunk is shut: every call but `close`
    // answers that refusal. What the work buffers hold afterwards is not said.
    pub fn open(
        chain: FittedChain<A, B, S>,
        cell: C,
        work: &mut [u8],
        scratch: &mut [u8],
    ) -> OpenChunk<A, B, S, C>
        ensures chain { result.chain ≡ chain }
        ensures cell { result.cell ≡ cell }
        ensures opened { seen result ≡ opening (coder chain) (C.Cell.capacity cell) (C.Cell.value cell) (open_refusal (coder chain) (C.Cell.capacity cell) (C.Cell.value cell) (length work.old) (length scratch.old)) }
        ensures law { (seen result).shut ≡ None → Law (seen result) [] (seen result) }
    {
        let place = chain.chain().cache_index();
        if let Err(e) = check(&chain, &cell, work, scratch) {
            return OpenChunk {
                chain,
                cell,
                shut: Some(e),
                place,
                cache: Cache::NoPlace,
            };
        }
        let cache = kept_of(&chain, &cell, work, scratch);
        OpenChunk {
            chain,
            cell,
            shut: None,
            place,
            cache,
        }
    }

    // Why the chunk is shut, if it is.
    pub fn shut(&self) -> Option<Fault>
        ensures value { result ≡ self.now.shut }
        ensures number { (seen self.now).shut ≡ number_of result }
    {
        self.shut
    }

    // Gives the chain and the cell back. The cell is the one that the chunk's history makes.
    pub fn close(self) -> (FittedChain<A, B, S>, C)
        ensures chain { result.0 ≡ self.chain }
        ensures cell { result.1 ≡ self.cell }
        ensures law { (o : View) (h : History) → Law o h (seen self) → C.Cell.value result.1 ≡ cell o h }
    {
        let OpenChunk {
            chain,
            cell,
            shut: _,
            place: _,
            cache: _,
        } = self;
        (chain, cell)
    }
}
