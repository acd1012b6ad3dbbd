// One trait for codecs over bytes and over arrays.
ghost use Rattle.std.specs.Prelude.{◌≡◌, ℕ, Bool, length};
ghost use Rattle.form.specs.Refusals.{told};
ghost use Rattle.stage.specs.Stage.{Stage, Laws, Counted};
ghost use Rattle.stage.specs.Arrays.{array_bytes};
ghost use Rattle.stage.specs.Calls.{capability_answer, coded_answer, size_answer, Encoded, Undone};

use crate::capability::PartialDecoderCapability;
use form::array_form::Form;
use form::fault::Fault;

// What a codec takes or gives: a number of bytes, or an array's form, which says how many bytes there are.
pub trait Representation {
    ghost weight: { Self → ℕ };

    fn bytes(&self) -> usize
        ensures { result ≡ weight self.now };
}

// A list of bytes, by its length.
impl Representation for usize {
    ghost weight = { λ n. n };

    fn bytes(&self) -> usize {
        *self
    }
}

// An array, by its form.
impl Representation for Form {
    ghost weight = { array_bytes };

    fn bytes(&self) -> usize {
        Form::bytes(self)
    }
}

pub trait Codec {
    type Decoded: Representation + Drop;

    type Encoded: Representation + Drop;

    ghost meaning: { Self → Stage Self.Decoded Self.Encoded };

    // How many singles there are, if a usize holds it.
    fn singles(&self) -> Option<usize>
        ensures { Counted (length (meaning self.now).singles) result };

    // What a single can do; 13 if it is not there.
    fn capability(&self, single: usize) -> Result<PartialDecoderCapability, Fault>
        ensures { told result ≡ capability_answer (meaning self.now) single };

    // The form of the encoded, or why the form is not taken.
    fn coded(&self, form: &Self::Decoded) -> Result<Self::Encoded, Fault>
        ensures { told result ≡ coded_answer (meaning self.now) form.now };

    // How many bytes there are at a place; 13 if it is not there.
    fn size(&self, form: &Self::Decoded, place: usize) -> Result<usize, Fault>
        ensures { told result ≡ size_answer (meaning self.now) form.now place };

    // Encodes the first bytes of buf, as many as the form has, where they stand. The buffers are two slices: of a struct that
    // held both, each clause would also have to say that it still holds these two, and one that promised their room would ask
    // more of callers.
    fn encode(
        &self,
        form: &Self::Decoded,
        buf: &mut [u8],
        scratch: &mut [u8],
    ) -> Result<usize, Fault>
        ensures { Encoded Self.Decoded.Representation.weight (meaning self.now) form.now buf.old buf.new (length scratch.old) result };

    // Undoes the first bytes of buf, as many as there are at the place `from`, up to the place `to`, where they stand. The
    // places are two numbers and no struct with the checks, since a pair takes them apart and gives its halves others.
    fn undo(
        &self,
        form: &Self::Decoded,
        from: usize,
        to: usize,
        checks: bool,
        buf: &mut [u8],
        scratch: &mut [u8],
    ) -> Result<usize, Fault>
        ensures { Undone Self.Decoded.Representation.weight (meaning self.now) form.now from to checks buf.old buf.new (length scratch.old) result };

    ghost lawful: { (s : Self) → Laws Self.Decoded.Representation.weight Self.Encoded.Representation.weight (meaning s) };
}
