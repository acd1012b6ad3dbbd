// Two codecs, one after the other.
#![tactic(auto)]

ghost use Rattle.std.specs.Prelude.{◌≡◌, ℕ, ◌+◌, ◌-◌, ◌^◌, ◌<◌, min, length, Ok, Err};
ghost use Rattle.form.specs.declared.fault.Fault.TheVariants.{Checksum};
ghost use Rattle.form.specs.Refusals.{refusal, told, unless};
ghost use Rattle.pair.specs.Compose.{after, shifted, lifted};
ghost use Rattle.pair.specs.Composition.{after_laws};
ghost use Rattle.pair.specs.ArrayPairs.{after_arrays, after_array_to_bytes};

use form::fault::Fault;
use stage::array_to_array::ArrayToArrayCodec;
use stage::array_to_bytes::ArrayToBytesCodec;
use stage::capability::PartialDecoderCapability;
use stage::codec::{Codec, Representation};

// The outer codec encodes what the inner encoded.
#[derive(Clone, Copy, Drop)]
pub struct Pair<O, I> {
    outer: O,
    inner: I,
}

impl<O, I> Pair<O, I> {
    pub fn new(outer: O, inner: I) -> Pair<O, I>
        ensures outer { result.outer ≡ outer }
        ensures inner { result.inner ≡ inner }
    {
        Pair { outer, inner }
    }
}

// The last place of a codec, or the last that a usize holds.
fn last_place<C: Codec>(codec: &C) -> usize
    ensures { result ≡ min (length (C.Codec.meaning codec.now).singles) (2 ^ 64 - 1) }
{
    codec.singles().unwrap_or(usize::MAX)
}

// A failed test's single, counted from the pair's first single on.
fn renamed(e: Fault, by: usize) -> Fault
    requires { (k : ℕ) → e ≡ Checksum k → by + k < 2 ^ 64 }
    ensures { refusal result ≡ shifted by (refusal e) }
{
    match e {
        Fault::Checksum(k) => Fault::Checksum(by + k),
        other => other,
    }
}

// The inner half's answer as the pair's.
fn shift(r: Result<usize, Fault>, by: usize) -> Result<usize, Fault>
    requires { (k : ℕ) → r ≡ Err (Checksum k) → by + k < 2 ^ 64 }
    ensures { told result ≡ lifted by (told r) }
{
    r.map_err(|e| renamed(e, by))
}

// The form between the two halves, if neither refuses.
fn middle_form<O: Codec<Decoded = I::Encoded>, I: Codec>(
    outer: &O,
    inner: &I,
    form: &I::Decoded,
) -> Result<I::Encoded, Fault>
    ensures { told result ≡ unless ((after (O.Codec.meaning outer.now) (I.Codec.meaning inner.now)).refusal form.now) (Ok ((I.Codec.meaning inner.now).coded form.now)) }
{
    let middle = inner.coded(form)?;
    outer.coded(&middle)?;
    Ok(middle)
}

impl<O: Codec<Decoded = I::Encoded>, I: Codec> Codec for Pair<O, I> {
    type Decoded = I::Decoded;

    type Encoded = O::Encoded;

    ghost meaning = { λ s. after (O.Codec.meaning s.outer) (I.Codec.meaning s.inner) };

    ghost lawful = { λ s.
        after_laws I.Decoded.Representation.weight I.Encoded.Representation.weight O.Encoded.Representation.weight
        (O.Codec.meaning s.outer) (I.Codec.meaning s.inner)
        (O.Codec.lawful s.outer) (I.Codec.lawful s.inner) };

    fn singles(&self) -> Option<usize> {
        self.outer.singles()?.checked_add(self.inner.singles()?)
    }

    fn capability(&self, single: usize) -> Result<PartialDecoderCapability, Fault> {
        match self.outer.singles() {
            Some(seam) if single >= seam => self.inner.capability(single - seam),
            _ => self.outer.capability(single),
        }
    }

    fn coded(&self, form: &Self::Decoded) -> Result<Self::Encoded, Fault> {
        let middle = self.inner.coded(form)?;
        self.outer.coded(&middle)
    }

    fn size(&self, form: &Self::Decoded, place: usize) -> Result<usize, Fault> {
        let middle = middle_form(&self.outer, &self.inner, form)?;
        let seam = last_place(&self.outer);
        if place <= seam {
            self.outer.size(&middle, place)
        } else {
            self.inner.size(form, place - seam)
        }
    }

    fn encode(
        &self,
        form: &Self::Decoded,
        buf: &mut [u8],
        scratch: &mut [u8],
    ) -> Result<usize, Fault> {
        let middle = middle_form(&self.outer, &self.inner, form)?;
        self.inner.encode(form, buf, scratch)?;
        self.outer.encode(&middle, buf, scratch)
    }

    fn undo(
        &self,
        form: &Self::Decoded,
        from: usize,
        to: usize,
        checks: bool,
        buf: &mut [u8],
        scratch: &mut [u8],
    ) -> Result<usize, Fault> {
        let middle = middle_form(&self.outer, &self.inner, form)?;
        let seam = last_place(&self.outer);
        if to <= seam {
            return self.outer.undo(&middle, from, to, checks, buf, scratch);
        }
        if to - seam > last_place(&self.inner) {
            return Err(Fault::Length);
        }
        if from < seam {
            self.outer.undo(&middle, from, seam, checks, buf, scratch)?;
        }
        let start = from.saturating_sub(seam);
        let undone = self
            .inner
            .undo(form, start, to - seam, checks, buf, scratch);
        shift(undone, seam)
    }
}

// A pair of codecs from arrays to arrays is one.
impl<O: ArrayToArrayCodec, I: ArrayToArrayCodec> ArrayToArrayCodec for Pair<O, I> {
    ghost keeps = { λ s.
        after_arrays (O.Codec.meaning s.outer) (I.Codec.meaning s.inner)
        (O.ArrayToArrayCodec.keeps s.outer) (I.ArrayToArrayCodec.keeps s.inner) };
}

// One from arrays to bytes after one from arrays to arrays is one from arrays to bytes.
impl<O: ArrayToBytesCodec, I: ArrayToArrayCodec> ArrayToBytesCodec for Pair<O, I> {
    ghost keeps = { λ s.
        after_array_to_bytes (O.Codec.meaning s.outer) (I.Codec.meaning s.inner)
        (O.ArrayToBytesCodec.keeps s.outer) (I.ArrayToArrayCodec.keeps s.inner) };
}
