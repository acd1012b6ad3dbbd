// The codec that changes nothing.
ghost use Rattle.base_codecs.specs.Empty.{empty_stage};
ghost use Rattle.base_codecs.specs.Emptiness.{empty_laws, empty_arrays};

use form::array_form::Form;
use form::fault::Fault;
use stage::array_to_array::ArrayToArrayCodec;
use stage::capability::PartialDecoderCapability;
use stage::codec::{Codec, Representation};
use stage::room::room;
use std::marker::PhantomData;

// The field is open, so that a constant can be written: a constant calls no function.
#[derive(Clone, Copy)]
pub struct Empty<F> {
    pub of: PhantomData<F>,
}

impl<F> Empty<F> {
    pub fn new() -> Empty<F> {
        Empty { of: PhantomData }
    }
}

impl<F: Representation + Copy + Drop> Codec for Empty<F> {
    type Decoded = F;

    type Encoded = F;

    ghost meaning = { λ s. empty_stage F.Representation.weight };

    ghost lawful = { λ s. empty_laws F.Representation.weight };

    fn singles(&self) -> Option<usize> {
        Some(0)
    }

    fn capability(&self, _single: usize) -> Result<PartialDecoderCapability, Fault> {
        Err(Fault::Length)
    }

    fn coded(&self, form: &F) -> Result<F, Fault> {
        if form.bytes() > 4096 {
            return Err(Fault::TooLong);
        }
        Ok(*form)
    }

    fn size(&self, form: &F, place: usize) -> Result<usize, Fault> {
        let coded = self.coded(form)?;
        if place > 0 {
            return Err(Fault::Length);
        }
        Ok(coded.bytes())
    }

    fn encode(&self, form: &F, buf: &mut [u8], scratch: &mut [u8]) -> Result<usize, Fault> {
        let encoded = self.coded(form)?;
        room(buf, scratch)?;
        Ok(encoded.bytes())
    }

    fn undo(
        &self,
        form: &F,
        from: usize,
        to: usize,
        _checks: bool,
        buf: &mut [u8],
        scratch: &mut [u8],
    ) -> Result<usize, Fault> {
        let same = self.size(form, to)?;
        if from > to {
            return Err(Fault::Length);
        }
        room(buf, scratch)?;
        Ok(same)
    }
}

impl ArrayToArrayCodec for Empty<Form> {
    ghost keeps = { λ s. empty_arrays };
}
