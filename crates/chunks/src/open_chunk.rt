// A chunk that is open: its chain with the form, its cell, and what is kept of it.
ghost use Rattle.std.specs.Prelude.{◌≡◌, Some, None};
ghost use Rattle.form.specs.declared.fault.Fault.{Fault};
ghost use Rattle.form.specs.Refusals.{refusal, plain};
ghost use Rattle.codec_chain.specs.Chain.{chain_stage};
ghost use Rattle.codec_chain.specs.Place.{cache_index};
ghost use Rattle.chunks.specs.Caches.{cached_of};
ghost use Rattle.chunks.specs.Sound.{Sound, coder_of};

use crate::cache::Cache;
use cells::cell::Cell;
use codec_chain::fitted_chain::FittedChain;
use form::fault::Fault;
use stage::array_to_array::ArrayToArrayCodec;
use stage::array_to_bytes::ArrayToBytesCodec;
use stage::codec::Codec;

#[derive(Drop)]
pub struct OpenChunk<
    A: ArrayToArrayCodec,
    B: ArrayToBytesCodec,
    S: Codec<Decoded = usize, Encoded = usize>,
    C: Cell,
> {
    pub(crate) chain: FittedChain<A, B, S>,
    pub(crate) cell: C,
    // why no call is taken, if none is
    pub(crate) shut: Option<Fault>,
    // the cache place
    pub(crate) place: Option<usize>,
    pub(crate) cache: Cache,
    // the place is the chain's
    ghost placed: { place ≡ cache_index (chain_stage A.Codec.meaning B.Codec.meaning S.Codec.meaning chain.chain.stages).singles },
    // a refusal of an opening tells its number alone
    ghost plain: { (e : Fault) → shut ≡ Some e → refusal e ≡ plain (refusal e).number },
    // unless it is shut
    ghost sound: { shut ≡ None → Sound (coder_of A.Codec.meaning B.Codec.meaning S.Codec.meaning chain.chain.stages chain.form) (C.Cell.capacity cell) (C.Cell.value cell) (cached_of cache) },
}
