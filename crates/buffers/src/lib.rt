// The output buffer of a codec's calls, with the two work buffers that they pass through.
#![tactic(auto)]

ghost use Rattle.std.specs.Prelude.{◌≡◌, replicate, IfOk, vec_items, vec_len};
ghost use Rattle.form.specs.Refusals.{told};
ghost use Rattle.stage.specs.Calls.{encode_answer, undo_answer, written};

use form::fault::Fault;
use stage::codec::Codec;
use std::alloc::{AllocError, Global};

#[derive(Drop)]
pub struct Buffers {
    pub output: Vec<u8>,
    // what these two hold after a call is not said
    pub work: Vec<u8>,
    pub scratch: Vec<u8>,
}

impl Buffers {
    // Buffers of so many bytes each, all 0.
    pub fn new(heap: Global, size: usize) -> Result<Buffers, AllocError>
        ensures output { IfOk result (λ b. vec_items b.output ≡ replicate size 0) }
        ensures work { IfOk result (λ b. vec_items b.work ≡ replicate size 0) }
        ensures scratch { IfOk result (λ b. vec_items b.scratch ≡ replicate size 0) }
    {
        Ok(Buffers {
            output: vec![in heap; 0; size]?,
            work: vec![in heap; 0; size]?,
            scratch: vec![in heap; 0; size]?,
        })
    }

    // Encodes the input, an array or bytes of the form, into the front of the output, and answers how many bytes that are.
    pub fn encode<C: Codec>(
        &mut self,
        codec: &C,
        form: &C::Decoded,
        input: &[u8],
    ) -> Result<usize, Fault>
        ensures answer { told result ≡ encode_answer C.Decoded.Representation.weight (C.Codec.meaning codec.now) form.now input.now (vec_len self.old.output) (vec_len self.old.work) (vec_len self.old.scratch) }
        ensures bytes { self.new.output.items ≡ written result ((C.Codec.meaning codec.now).encoded form.now input.now) self.old.output.items }
        ensures output { vec_len self.new.output ≡ vec_len self.old.output }
        ensures work { vec_len self.new.work ≡ vec_len self.old.work }
        ensures scratch { vec_len self.new.scratch ≡ vec_len self.old.scratch }
    {
        coding::encode(
            codec,
            form,
            input,
            self.output.as_mut_slice(),
            self.work.as_mut_slice(),
            self.scratch.as_mut_slice(),
        )
    }

    // Undoes the input, the bytes at the place `from`, to the place `to`, into the front of the output, and answers how many
    // bytes that are.
    pub fn undo<C: Codec>(
        &mut self,
        codec: &C,
        form: &C::Decoded,
        from: usize,
        to: usize,
        checks: bool,
        input: &[u8],
    ) -> Result<usize, Fault>
        ensures answer { told result ≡ undo_answer C.Decoded.Representation.weight (C.Codec.meaning codec.now) form.now from to checks input.now (vec_len self.old.output) (vec_len self.old.work) (vec_len self.old.scratch) }
        ensures bytes { self.new.output.items ≡ written result ((C.Codec.meaning codec.now).undone form.now from to input.now) self.old.output.items }
        ensures output { vec_len self.new.output ≡ vec_len self.old.output }
        ensures work { vec_len self.new.work ≡ vec_len self.old.work }
        ensures scratch { vec_len self.new.scratch ≡ vec_len self.old.scratch }
    {
        coding::undo(
            codec,
            form,
            from,
            to,
            checks,
            input,
            self.output.as_mut_slice(),
            self.work.as_mut_slice(),
            self.scratch.as_mut_slice(),
        )
    }
}

#[cfg(test)]
mod tests {
    use super::*;
    use std::test::Fail;

    // No clause can say that there is memory.
    #[test]
    fn are_made(rt: HostRuntime) -> Result<(), Fail> {
        let buffers = Buffers::new(rt.alloc(), 4096)?;
        assert_eq!(rt; buffers.output.len(), 4096);
        assert_eq!(rt; buffers.work.len(), 4096);
        assert_eq!(rt; buffers.scratch.len(), 4096);
        Ok(())
    }
}
