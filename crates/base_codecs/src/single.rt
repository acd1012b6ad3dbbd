// The stage that has a single coding, and no other.
ghost use Rattle.std.specs.Prelude.{◌≡◌};
ghost use Rattle.stage.specs.Single.{single};
ghost use Rattle.stage.proofs.OneSingle.{single_laws};

use form::fault::Fault;
use stage::array_to_array::{ArrayToArrayCodec, SingleArrayToArrayCodec};
use stage::array_to_bytes::{ArrayToBytesCodec, SingleArrayToBytesCodec};
use stage::capability::PartialDecoderCapability;
use stage::codec::{Codec, Representation};
use stage::room::room;
use stage::single::SingleCodec;

// The field is open, so that what a choice holds can be read and written in a pattern and in a constant.
#[derive(Clone, Copy)]
pub struct Single<C> {
    pub codec: C,
}

impl<C> Single<C> {
    pub fn new(codec: C) -> Single<C>
        ensures { result.codec ≡ codec }
    {
        Single { codec }
    }
}

impl<C: SingleCodec> Codec for Single<C> {
    type Decoded = C::Decoded;

    type Encoded = C::Encoded;

    ghost meaning = { λ s. single C.Decoded.Representation.weight C.Encoded.Representation.weight (C.SingleCodec.coding s.codec) };

    ghost lawful = { λ s. single_laws C.Decoded.Representation.weight C.Encoded.Representation.weight (C.SingleCodec.coding s.codec) (C.SingleCodec.lawful s.codec) };

    fn singles(&self) -> Option<usize> {
        Some(1)
    }

    fn capability(&self, single: usize) -> Result<PartialDecoderCapability, Fault> {
        if single > 0 {
            return Err(Fault::Length);
        }
        Ok(self.codec.capability())
    }

    fn coded(&self, form: &Self::Decoded) -> Result<Self::Encoded, Fault> {
        self.codec.coded(form)
    }

    fn size(&self, form: &Self::Decoded, place: usize) -> Result<usize, Fault> {
        let encoded = self.codec.coded(form)?;
        match place {
            0 => Ok(encoded.bytes()),
            1 => Ok(form.bytes()),
            _ => Err(Fault::Length),
        }
    }

    fn encode(
        &self,
        form: &Self::Decoded,
        buf: &mut [u8],
        scratch: &mut [u8],
    ) -> Result<usize, Fault> {
        self.codec.encode(form, buf, scratch)
    }

    fn undo(
        &self,
        form: &Self::Decoded,
        from: usize,
        to: usize,
        checks: bool,
        buf: &mut [u8],
        scratch: &mut [u8],
    ) -> Result<usize, Fault> {
        let bytes = self.size(form, from)?;
        if from > to || to > 1 {
            return Err(Fault::Length);
        }
        room(buf, scratch)?;
        if from == to {
            return Ok(bytes);
        }
        if checks && !self.codec.test(form, buf)? {
            return Err(Fault::Checksum(0));
        }
        self.codec.decode(form, buf, scratch)
    }
}

// From arrays, it keeps what its coding keeps.
impl<C: SingleArrayToArrayCodec> ArrayToArrayCodec for Single<C> {
    ghost keeps = { λ s. C.SingleArrayToArrayCodec.keeps s.codec };
}

impl<C: SingleArrayToBytesCodec> ArrayToBytesCodec for Single<C> {
    ghost keeps = { λ s. C.SingleArrayToBytesCodec.keeps s.codec };
}
