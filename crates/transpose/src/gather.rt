// Elements gathered by their indices.
ghost use Rattle.std.specs.Prelude.{◌≡◌, ℕ, ◌<◌, length};
ghost use Rattle.form.specs.Shapes.{on};
ghost use Rattle.stage.specs.Arrays.{element_count, array_bytes};
ghost use Rattle.stage.specs.Calls.{FrontTurned};
ghost use Rattle.axes.specs.Axes.{offset, index, Follows};

use crate::transpose_codec::TransposeCodec;
use form::array_form::Form;
use form::fault::Fault;
use stage::room::room;

// How an array of the form `by` is made of the elements of one of the form `of`: axis a of the latter is axis order[a] of the
// former.
#[derive(Clone, Copy)]
pub(crate) struct Gathering {
    pub(crate) of: Form,
    pub(crate) by: Form,
    pub(crate) order: TransposeCodec,
    ghost dims: { order.dims ≡ of.dims },
    ghost follows: { Follows (on of.lengths) (on by.lengths) (on order.order) of.dims },
}

impl Gathering {
    ghost use Rattle.transpose.specs.Gatherings.{seat_in, gathered_by};

    // The index of an element of `by` on each axis.
    fn index(&self, element: usize) -> [usize; 4]
        requires { element < element_count self.now.of }
        ensures { (a : ℕ) → a < self.now.of.dims → on result a ≡ index (on self.now.by.lengths) self.now.of.dims element a }
    {
        let mut at = [0; 4];
        let mut rest = element;
        // By index: of what is written through iter_mut a proof knows only the length.
        for a in (0..self.of.dims).rev() {
            at[a] = rest % self.by.lengths[a];
            rest /= self.by.lengths[a];
        }
        at
    }

    // The number of the element of `of` whose index on axis a is at[order[a]].
    fn offset(&self, at: [usize; 4]) -> usize
        requires { (a : ℕ) → a < self.now.of.dims → on at (on self.now.order.order a) < on self.now.of.lengths a }
        ensures { result ≡ offset (on self.now.of.lengths) (λ a. on at (on self.now.order.order a)) self.now.of.dims }
    {
        let mut n = 0;
        for (length, axis) in self.of.lengths.iter().zip(self.order.order()) {
            n = n * *length + at[*axis];
        }
        n
    }

    // The number of the element of `of` that becomes this element of `by`.
    fn seat(&self, element: usize) -> usize
        requires { element < element_count self.now.of }
        ensures { result ≡ seat_in self.now element }
    {
        self.offset(self.index(element))
    }

    // Gathers the elements of a whole array into another.
    fn gather(&self, source: &[u8], target: &mut [u8])
        requires whole { length source.now ≡ array_bytes self.now.of }
        requires room { length target.old ≡ array_bytes self.now.of }
        ensures { target.new ≡ gathered_by self.now source.now }
    {
        let size = self.of.data_type.size();
        // By index: of what is written through chunks_exact_mut a proof knows only the length.
        for e in 0..self.of.elements() {
            let from = self.seat(e) * size;
            let to = e * size;
            target[to..to + size].copy_from_slice(&source[from..from + size]);
        }
    }

    // The same in the front of a buffer, where it stands.
    pub(crate) fn gather_in_place(&self, buf: &mut [u8], scratch: &mut [u8]) -> Result<usize, Fault>
        ensures { FrontTurned (gathered_by self.now) (array_bytes self.now.of) buf.old buf.new (length scratch.old) result }
    {
        room(buf, scratch)?;
        let n = self.of.bytes();
        self.gather(&buf[..n], &mut scratch[..n]);
        buf[..n].copy_from_slice(&scratch[..n]);
        Ok(n)
    }
}
