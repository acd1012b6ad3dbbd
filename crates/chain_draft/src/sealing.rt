// A sealed draft: its codecs in the seats of a chain.
ghost use Rattle.std.specs.Prelude.{◌≡◌, ◌≤◌, length, get_or};
ghost use Rattle.form.specs.Answers.{Answers};
ghost use Rattle.chain_draft.specs.Seal.{seal_refusal, array_stages, byte_stages, Seals};

use crate::ChainDraft;
use crate::byte_stages::ByteStages;
use array_codecs::array_codec::ArrayCodec;
use base_codecs::single::Single;
use byte_codecs::byte_codec::ByteCodec;
use bytes_codec::bytes_codec::BytesCodec;
use codec_chain::codec_chain::CodecChain;
use codec_chain::fitted_chain::FittedChain;
use form::fault::Fault;
use pair::Pair;

// Two array codecs in their seats.
pub type ArrayStages = Pair<ArrayCodec, ArrayCodec>;

// The chain of these, the bytes codec and four byte codecs.
pub type SealedChain = CodecChain<ArrayStages, Single<BytesCodec>, ByteStages>;

// Such a chain with a form.
pub type FittedSealedChain = FittedChain<ArrayStages, Single<BytesCodec>, ByteStages>;

// The codec for a seat, or the empty one where there is none.
fn seat<C: Copy>(codecs: &[C], at: usize, empty: C) -> C
    ensures { result ≡ get_or codecs.now at empty }
{
    codecs.get(at).copied().unwrap_or(empty)
}

impl ChainDraft {
    // The array codecs as one, the first of them encoding first.
    pub fn array_stages(&self) -> ArrayStages
        ensures seats { result ≡ array_stages self.now.array_to_array.items }
        ensures few { length self.now.array_to_array.items ≤ 2 }
    {
        let codecs = self.array_to_array.as_slice();
        let first = seat(codecs, 0, ArrayCodec::empty());
        let second = seat(codecs, 1, ArrayCodec::empty());
        Pair::new(second, first)
    }

    // The byte codecs as one, the first of them encoding first.
    pub fn byte_stages(&self) -> ByteStages
        ensures seats { result ≡ byte_stages self.now.bytes_to_bytes.items }
        ensures few { length self.now.bytes_to_bytes.items ≤ 4 }
    {
        let codecs = self.bytes_to_bytes.as_slice();
        ByteStages::new([0, 1, 2, 3].map(|at| seat(codecs, at, ByteCodec::empty())))
    }

    // The chain of the draft's codecs. The draft stays as it is.
    pub fn seal(&self) -> Result<SealedChain, Fault>
        ensures { Answers (seal_refusal self.now) (λ chain. Seals self.now chain.stages) result }
    {
        let codec = self.array_to_bytes.ok_or(Fault::CodecOrder)?;
        let chain = CodecChain::new(self.array_stages(), Single::new(codec), self.byte_stages());
        Ok(chain.unwrap())
    }
}
