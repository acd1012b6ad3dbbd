// One of two codecs, chosen at run time: each call goes to the one that was chosen. An enum of its own, since `Either` of the
// kit would want its impl in `stage`, beside the trait, and would say no more.
ghost use Rattle.std.specs.Prelude.{◌≡◌};
ghost use Rattle.base_codecs.specs.Empty.{empty_stage};
ghost use Rattle.base_codecs.specs.Chosen.{chosen, empty_choice};
ghost use Rattle.base_codecs.specs.Choosing.{chosen_laws, chosen_arrays};

use crate::empty::Empty;
use form::fault::Fault;
use stage::array_to_array::ArrayToArrayCodec;
use stage::capability::PartialDecoderCapability;
use stage::codec::{Codec, Representation};

#[derive(Clone, Copy, Drop)]
pub enum Chosen<A, B> {
    First(A),
    Second(B),
}

impl<F: Representation + Copy + Drop, B: Codec<Decoded = F, Encoded = F>> Chosen<Empty<F>, B> {
    // The choice of the codec that changes nothing.
    pub fn empty() -> Chosen<Empty<F>, B>
        ensures value { result ≡ empty_choice }
        ensures meaning { ⟦<Chosen<Empty<F>, B> as Codec>⟧.meaning result ≡ empty_stage F.Representation.weight }
    {
        Chosen::First(Empty::new())
    }
}

// By default, the codec that changes nothing is chosen.
impl<F: Representation + Copy + Drop, B: Codec<Decoded = F, Encoded = F>> Default
    for Chosen<Empty<F>, B> {
    ghost is_default = { λ c. c ≡ empty_choice };

    fn default() -> Chosen<Empty<F>, B> {
        Chosen::empty()
    }
}

impl<A: Codec, B: Codec<Decoded = A::Decoded, Encoded = A::Encoded>> Codec for Chosen<A, B> {
    type Decoded = A::Decoded;

    type Encoded = A::Encoded;

    ghost meaning = { chosen A.Codec.meaning B.Codec.meaning };

    ghost lawful = { chosen_laws A.Decoded.Representation.weight A.Encoded.Representation.weight A.Codec.meaning B.Codec.meaning A.Codec.lawful B.Codec.lawful };

    fn singles(&self) -> Option<usize> {
        match self {
            Chosen::First(c) => c.singles(),
            Chosen::Second(c) => c.singles(),
        }
    }

    fn capability(&self, single: usize) -> Result<PartialDecoderCapability, Fault> {
        match self {
            Chosen::First(c) => c.capability(single),
            Chosen::Second(c) => c.capability(single),
        }
    }

    fn coded(&self, form: &Self::Decoded) -> Result<Self::Encoded, Fault> {
        match self {
            Chosen::First(c) => c.coded(form),
            Chosen::Second(c) => c.coded(form),
        }
    }

    fn size(&self, form: &Self::Decoded, place: usize) -> Result<usize, Fault> {
        match self {
            Chosen::First(c) => c.size(form, place),
            Chosen::Second(c) => c.size(form, place),
        }
    }

    fn encode(
        &self,
        form: &Self::Decoded,
        buf: &mut [u8],
        scratch: &mut [u8],
    ) -> Result<usize, Fault> {
        match self {
            Chosen::First(c) => c.encode(form, buf, scratch),
            Chosen::Second(c) => c.encode(form, buf, scratch),
        }
    }

    fn undo(
        &self,
        form: &Self::Decoded,
        from: usize,
        to: usize,
        checks: bool,
        buf: &mut [u8],
        scratch: &mut [u8],
    ) -> Result<usize, Fault> {
        match self {
            Chosen::First(c) => c.undo(form, from, to, checks, buf, scratch),
            Chosen::Second(c) => c.undo(form, from, to, checks, buf, scratch),
        }
    }
}

// Of two codecs from arrays to arrays, the one that is chosen is one.
impl<A: ArrayToArrayCodec, B: ArrayToArrayCodec> ArrayToArrayCodec for Chosen<A, B> {
    ghost keeps = { chosen_arrays A.Codec.meaning B.Codec.meaning A.ArrayToArrayCodec.keeps B.ArrayToArrayCodec.keeps };
}
