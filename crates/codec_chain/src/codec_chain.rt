// A chain of codecs: from arrays to arrays, from arrays to bytes, from bytes to bytes.
ghost use Rattle.std.specs.Prelude.{◌≡◌, ◌^◌, ◌<◌, ◌↔◌, length, IsSome, IfSome};
ghost use Rattle.codec_chain.specs.Chain.{chain_stage, InOrder};
ghost use Rattle.codec_chain.specs.Place.{cache_index, Placed};

use pair::Pair;
use stage::array_to_array::ArrayToArrayCodec;
use stage::array_to_bytes::ArrayToBytesCodec;
use stage::codec::Codec;

// For any codecs of the three kinds. Several of a kind are a pair of them, and none is the empty codec.
#[derive(Drop)]
pub struct CodecChain<
    A: ArrayToArrayCodec,
    B: ArrayToBytesCodec,
    S: Codec<Decoded = usize, Encoded = usize>,
> {
    stages: Pair<S, Pair<B, A>>,
    // how many singles there are
    singles: usize,
    // how many of them are of the codecs from bytes to bytes
    bytes_place: usize,
    ghost counted: { singles ≡ length (chain_stage A.Codec.meaning B.Codec.meaning S.Codec.meaning stages).singles },
    ghost placed: { bytes_place ≡ length (S.Codec.meaning stages.outer).singles },
}

impl<
    A: ArrayToArrayCodec + Drop,
    B: ArrayToBytesCodec + Drop,
    S: Codec<Decoded = usize, Encoded = usize> + Drop,
> CodecChain<A, B, S> {
    // The chain of the three, if a usize counts its singles.
    pub fn new(
        array_to_array: A,
        array_to_bytes: B,
        bytes_to_bytes: S,
    ) -> Option<CodecChain<A, B, S>>
        ensures made { IfSome result (λ c. c.stages ≡ record { outer = bytes_to_bytes; inner = record { outer = array_to_bytes; inner = array_to_array } }) }
        ensures counted { IsSome result ↔ (length (chain_stage A.Codec.meaning B.Codec.meaning S.Codec.meaning (record { outer = bytes_to_bytes; inner = record { outer = array_to_bytes; inner = array_to_array } })).singles < 2 ^ 64) }
    {
        let bytes_place = bytes_to_bytes.singles()?;
        let stages = Pair::new(bytes_to_bytes, Pair::new(array_to_bytes, array_to_array));
        let singles = stages.singles()?;
        Some(CodecChain {
            stages,
            singles,
            bytes_place,
        })
    }

    // The chain as one codec.
    pub fn stages(&self) -> &Pair<S, Pair<B, A>>
        ensures { result.now ≡ self.now.stages }
    {
        &self.stages
    }

    // How many singles there are.
    pub fn singles(&self) -> usize
        ensures { result ≡ length (chain_stage A.Codec.meaning B.Codec.meaning S.Codec.meaning self.now.stages).singles }
    {
        self.singles
    }

    // The place where all codecs from bytes to bytes are undone.
    pub fn bytes_place(&self) -> usize
        ensures { result ≡ length (S.Codec.meaning self.now.stages.outer).singles }
    {
        self.bytes_place
    }

    // The place where what is decoded is kept: none where every single has both capabilities, and else the least that meets the
    // rule.
    pub fn cache_index(&self) -> Option<usize>
        ensures value { result ≡ cache_index (chain_stage A.Codec.meaning B.Codec.meaning S.Codec.meaning self.now.stages).singles }
        ensures rule { Placed (chain_stage A.Codec.meaning B.Codec.meaning S.Codec.meaning self.now.stages).singles result }
    {
        let mut place = None;
        for single in 0..self.singles {
            let capability = self.stages.capability(single).unwrap();
            if !capability.partial_decode {
                place = Some(single + 1);
            } else if !capability.partial_read {
                place = Some(single);
            }
        }
        place
    }

    // The codecs encode in their order, array codecs first, and are undone in the reverse order; the first in encode order that
    // does not take what comes to it is the one that refuses.
    pub fn codes_in_order(&self)
        ensures { InOrder (A.Codec.meaning self.now.stages.inner.inner) (B.Codec.meaning self.now.stages.inner.outer) (S.Codec.meaning self.now.stages.outer) (chain_stage A.Codec.meaning B.Codec.meaning S.Codec.meaning self.now.stages) }
    {}
}
