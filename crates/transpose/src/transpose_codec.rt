// The transpose codec: the axes of an array in another order.
ghost use Rattle.std.specs.Prelude.{◌≡◌, ℕ, ◌<◌, ◌≤◌, ◌↔◌, length, take, IsOk};
ghost use Rattle.form.specs.Answers.{Answers};
ghost use Rattle.form.specs.Shapes.{on};
ghost use Rattle.axes.specs.Axes.{place};
ghost use Rattle.transpose.specs.Transpose.{Permutes, order_refusal, new_lengths, transposing, Turns, Goes, Comes};
ghost use Rattle.transpose.specs.Transposed.{Permutes-prop, transposing_laws, transposing_arrays};

use crate::axis_order::is_order;
use crate::gather::Gathering;
use form::array_form::Form;
use form::fault::Fault;
use stage::array_to_array::SingleArrayToArrayCodec;
use stage::capability::PartialDecoderCapability;
use stage::codec::Representation;
use stage::room::enough;
use stage::single::SingleCodec;
use std::array;

// An order of the axes, in the first `dims` entries: axis a of the encoded array is axis order[a] of the decoded one.
// An array with a count, since the codec is Copy and an ArrayVec is not.
#[derive(Clone, Copy)]
pub struct TransposeCodec {
    order: [usize; 4],
    dims: usize,
    ghost permutes: { Permutes (on order) dims } by { Permutes-prop (on order) dims },
}

impl TransposeCodec {
    // A transposition by an order of one to four axes.
    pub fn new(order: &[usize]) -> Result<TransposeCodec, Fault>
        ensures answer { Answers (order_refusal order.now) (λ t. (t.dims ≡ length order.now) × (take t.dims t.order ≡ order.now)) result }
        ensures ordered { IsOk result ↔ Permutes (on order.now) (length order.now) }
    {
        if !is_order(order) {
            return Err(Fault::AxisOrder);
        }
        let mut entries = [0; 4];
        entries[..order.len()].copy_from_slice(order);
        Ok(TransposeCodec {
            order: entries,
            dims: order.len(),
        })
    }

    pub fn order(&self) -> &[usize]
        ensures value { result.now ≡ take self.now.dims self.now.order }
        ensures len { length result.now ≡ self.now.dims }
        ensures permutes { Permutes (on result.now) self.now.dims }
    {
        &self.order[..self.dims]
    }

    // The order that turns the axes back: the place of each axis in this one.
    fn inverse(&self) -> TransposeCodec
        ensures dims { result.dims ≡ self.now.dims }
        ensures places { (a : ℕ) → a < self.now.dims → on result.order a ≡ place (on self.now.order) self.now.dims a }
    {
        let mut order = [0; 4];
        for (k, axis) in self.order().iter().enumerate() {
            order[*axis] = k;
        }
        TransposeCodec {
            order,
            dims: self.dims,
        }
    }

    // The lengths of an array whose axes are put into this order.
    fn new_lengths(&self, form: &Form) -> [usize; 4]
        requires { self.now.dims ≡ form.now.dims }
        ensures { result ≡ new_lengths self.now.order form.now }
    {
        array::from_fn(|axis| {
            if axis < self.dims {
                form.lengths[self.order[axis]]
            } else {
                1
            }
        })
    }
}

impl SingleCodec for TransposeCodec {
    type Decoded = Form;

    type Encoded = Form;

    ghost coding = { λ s. transposing s.order s.dims };

    ghost lawful = { λ s. transposing_laws s.order s.dims s.permutes };

    fn capability(&self) -> PartialDecoderCapability {
        PartialDecoderCapability::BY_PARTS
    }

    fn coded(&self, form: &Form) -> Result<Form, Fault> {
        if self.dims != form.dims {
            return Err(Fault::Dimensions);
        }
        Ok(Form {
            lengths: self.new_lengths(form),
            dims: form.dims,
            data_type: form.data_type,
            fill: form.fill,
        })
    }

    fn encode(&self, form: &Form, buf: &mut [u8], scratch: &mut [u8]) -> Result<usize, Fault> {
        let new = self.coded(form)?;
        let gathering = Gathering {
            of: *form,
            by: new,
            order: self.inverse(),
        };
        gathering.gather_in_place(buf, scratch)
    }

    fn decode(&self, form: &Form, buf: &mut [u8], scratch: &mut [u8]) -> Result<usize, Fault> {
        let new = self.coded(form)?;
        let gathering = Gathering {
            of: new,
            by: *form,
            order: *self,
        };
        gathering.gather_in_place(buf, scratch)
    }

    fn test(&self, form: &Form, buf: &[u8]) -> Result<bool, Fault> {
        self.coded(form)?;
        enough(buf)?;
        Ok(true)
    }
}

impl SingleArrayToArrayCodec for TransposeCodec {
    ghost keeps = { λ s. transposing_arrays s.order s.dims s.permutes };
}

// What is proved of the format: the new lengths, where each element goes, and where it comes from.
pub fn transpose_stands()
    ensures turns { Turns }
    ensures goes { Goes }
    ensures comes { Comes }
{}
