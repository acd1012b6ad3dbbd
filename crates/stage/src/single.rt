// What a codec of one single coding does.
ghost use Rattle.std.specs.Prelude.{◌≡◌, length, Ok, Err};
ghost use Rattle.form.specs.Refusals.{told, unless};
ghost use Rattle.stage.specs.Calls.{SingleEncoded, SingleDecoded, test_answer};
ghost use Rattle.stage.specs.Single.{Coding, CodingLaws};

use crate::capability::PartialDecoderCapability;
use crate::codec::Representation;
use form::fault::Fault;

pub trait SingleCodec {
    type Decoded: Representation + Drop;

    type Encoded: Representation + Drop;

    ghost coding: { Self → Coding Self.Decoded Self.Encoded };

    fn capability(&self) -> PartialDecoderCapability
        ensures { result ≡ (coding self.now).capability };

    // The form of the encoded, or why the form is not taken.
    fn coded(&self, form: &Self::Decoded) -> Result<Self::Encoded, Fault>
        ensures { told result ≡ unless ((coding self.now).refusal form.now) (Ok ((coding self.now).coded form.now)) };

    // Encodes the first bytes of buf, as many as the form has, where they stand. The buffers are two slices, as in `Codec`.
    fn encode(
        &self,
        form: &Self::Decoded,
        buf: &mut [u8],
        scratch: &mut [u8],
    ) -> Result<usize, Fault>
        ensures { SingleEncoded Self.Decoded.Representation.weight Self.Encoded.Representation.weight (coding self.now) form.now buf.old buf.new (length scratch.old) result };

    // Decodes the first bytes of buf, as many as the encoded has, where they stand, and tests nothing.
    fn decode(
        &self,
        form: &Self::Decoded,
        buf: &mut [u8],
        scratch: &mut [u8],
    ) -> Result<usize, Fault>
        ensures { SingleDecoded Self.Decoded.Representation.weight Self.Encoded.Representation.weight (coding self.now) form.now buf.old buf.new (length scratch.old) result };

    // Whether the encoded in the first bytes of buf passes the test. There is no body for the codecs whose test always passes:
    // here it could not be known of their coding.
    fn test(&self, form: &Self::Decoded, buf: &[u8]) -> Result<bool, Fault>
        ensures { told result ≡ test_answer Self.Decoded.Representation.weight Self.Encoded.Representation.weight (coding self.now) form.now buf.now };

    ghost lawful: { (s : Self) → CodingLaws Self.Decoded.Representation.weight Self.Encoded.Representation.weight (coding s) };
}
