// A chain of codecs with the form that it codes.
ghost use Rattle.std.specs.Prelude.{◌≡◌, length, None};
ghost use Rattle.form.specs.Answers.{Answers};
ghost use Rattle.form.specs.Refusals.{told};
ghost use Rattle.stage.specs.Arrays.{array_bytes};
ghost use Rattle.stage.specs.Calls.{written};
ghost use Rattle.codec_chain.specs.Chain.{chain_stage};
ghost use Rattle.codec_chain.specs.Whole.{encode_whole, decode_whole, decoded, Returns};

use crate::codec_chain::CodecChain;
use form::array_form::Form;
use form::fault::Fault;
use form::settings::Settings;
use stage::array_to_array::ArrayToArrayCodec;
use stage::array_to_bytes::ArrayToBytesCodec;
use stage::codec::Codec;

#[derive(Drop)]
pub struct FittedChain<
    A: ArrayToArrayCodec,
    B: ArrayToBytesCodec,
    S: Codec<Decoded = usize, Encoded = usize>,
> {
    chain: CodecChain<A, B, S>,
    form: Form,
    // how many bytes the encoded has
    encoded: usize,
    ghost taken: { (chain_stage A.Codec.meaning B.Codec.meaning S.Codec.meaning chain.stages).refusal form ≡ None },
    ghost sized: { encoded ≡ (chain_stage A.Codec.meaning B.Codec.meaning S.Codec.meaning chain.stages).size form 0 },
}

impl<
    A: ArrayToArrayCodec + Drop,
    B: ArrayToBytesCodec + Drop,
    S: Codec<Decoded = usize, Encoded = usize> + Drop,
> CodecChain<A, B, S> {
    // The chain with a form, or the refusal of the first stage in encode order that does not take what comes to it.
    pub fn fit(self, form: &Form) -> Result<FittedChain<A, B, S>, Fault>
        ensures { Answers ((chain_stage A.Codec.meaning B.Codec.meaning S.Codec.meaning self.stages).refusal form.now) (λ f. (f.chain ≡ self) × (f.form ≡ form.now)) result }
    {
        let encoded = self.stages().size(form, 0)?;
        Ok(FittedChain {
            chain: self,
            form: *form,
            encoded,
        })
    }
}

impl<
    A: ArrayToArrayCodec + Drop,
    B: ArrayToBytesCodec + Drop,
    S: Codec<Decoded = usize, Encoded = usize> + Drop,
> FittedChain<A, B, S> {
    pub fn chain(&self) -> &CodecChain<A, B, S>
        ensures { result.now ≡ self.now.chain }
    {
        &self.chain
    }

    pub fn form(&self) -> &Form
        ensures { result.now ≡ self.now.form }
    {
        &self.form
    }

    // How many bytes the encoded has: zarrs' encoded_representation.
    pub fn encoded_len(&self) -> usize
        ensures { result ≡ (chain_stage A.Codec.meaning B.Codec.meaning S.Codec.meaning self.now.chain.stages).size self.now.form 0 }
    {
        self.encoded
    }

    // Encodes an array of the form into the front of the output, and answers how many bytes that are. What the work buffers
    // hold afterwards is not said.
    pub fn encode(
        &self,
        input: &[u8],
        output: &mut [u8],
        work: &mut [u8],
        scratch: &mut [u8],
    ) -> Result<usize, Fault>
        ensures answer { told result ≡ encode_whole array_bytes (chain_stage A.Codec.meaning B.Codec.meaning S.Codec.meaning self.now.chain.stages) self.now.form input.now (length output.old) (length work.old) (length scratch.old) }
        ensures bytes { output.new ≡ written result ((chain_stage A.Codec.meaning B.Codec.meaning S.Codec.meaning self.now.chain.stages).encoded self.now.form input.now) output.old }
    {
        coding::encode(
            self.chain.stages(),
            &self.form,
            input,
            output,
            work,
            scratch,
        )
    }

    // Decodes encoded bytes into the front of the output, and answers how many bytes that are: the array's. Where the settings have
    // checks on, the first single in decode order whose test fails is named. What the work buffers hold afterwards is not said.
    pub fn decode(
        &self,
        settings: &Settings,
        encoded: &[u8],
        output: &mut [u8],
        work: &mut [u8],
        scratch: &mut [u8],
    ) -> Result<usize, Fault>
        ensures answer { told result ≡ decode_whole array_bytes (chain_stage A.Codec.meaning B.Codec.meaning S.Codec.meaning self.now.chain.stages) self.now.form settings.now.checks encoded.now (length output.old) (length work.old) (length scratch.old) }
        ensures bytes { output.new ≡ written result (decoded (chain_stage A.Codec.meaning B.Codec.meaning S.Codec.meaning self.now.chain.stages) self.now.form encoded.now) output.old }
    {
        coding::undo(
            self.chain.stages(),
            &self.form,
            0,
            self.chain.singles(),
            settings.checks,
            encoded,
            output,
            work,
            scratch,
        )
    }

    // What the chain encodes it decodes, to the array that it was.
    pub fn decoding_returns(&self)
        ensures { Returns array_bytes (chain_stage A.Codec.meaning B.Codec.meaning S.Codec.meaning self.now.chain.stages) self.now.form }
    {}
}
