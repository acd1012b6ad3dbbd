// Makes forms and reads them.
ghost use Rattle.std.specs.Prelude.{◌≡◌, ◌*◌, ◌≤◌, true, length, nat_le};
ghost use Rattle.form.specs.Answers.{Answers};
ghost use Rattle.form.specs.Types.{code_of, size_of};
ghost use Rattle.form.specs.Shapes.{product, is_shape, on, count, volume};
ghost use Rattle.form.specs.Forms.{shape_of, element_size, fill_of, form_refusal, Made};

use crate::array_form::Form;
use crate::data_type::DataType;
use crate::fault::Fault;

// Whether there are one to four lengths, none of them 0.
fn is_shape(shape: &[usize]) -> bool
    ensures { result ≡ is_shape shape.now }
{
    (1..=4).contains(&shape.len()) && !shape.contains(&0)
}

// Whether the elements take at most 4,096 bytes. A product past usize's greatest stays there, and is too large.
fn fits(shape: &[usize], size: usize) -> bool
    ensures { result ≡ nat_le (product shape.now * size) 4096 }
{
    let bytes = shape
        .iter()
        .fold(size, |bytes, len| bytes.saturating_mul(*len));
    bytes <= 4096
}

// The form, with 1 for each unused length and 0 for each unused byte.
fn padded(shape: &[usize], data_type: DataType, fill: &[u8]) -> Form
    requires named { is_shape shape.now ≡ true }
    requires fits { product shape.now * size_of data_type ≤ 4096 }
    requires single { length fill.now ≡ size_of data_type }
    ensures { Made shape.now (code_of data_type) fill.now result }
{
    let mut lengths = [1; 4];
    lengths[..shape.len()].copy_from_slice(shape);
    let mut element = [0; 8];
    element[..fill.len()].copy_from_slice(fill);
    Form {
        lengths,
        dims: shape.len(),
        data_type,
        fill: element,
    }
}

impl Form {
    // The form with the shape, the data type of the code and the fill value. The code is a number, since one that no data type
    // has is refused here, after the shape.
    pub fn new(shape: &[usize], code: usize, fill: &[u8]) -> Result<Form, Fault>
        ensures { Answers (form_refusal shape.now code fill.now) (Made shape.now code fill.now) result }
    {
        if !is_shape(shape) {
            return Err(Fault::Shape);
        }
        let data_type = DataType::try_from(code)?;
        let size = data_type.size();
        if !fits(shape, size) {
            return Err(Fault::ArraySize);
        }
        if fill.len() != size {
            return Err(Fault::FillValue);
        }
        Ok(padded(shape, data_type, fill))
    }

    pub fn shape(&self) -> &[usize]
        ensures value { result.now ≡ shape_of self.now }
        ensures len { length result.now ≡ self.now.dims }
    {
        &self.lengths[..self.dims]
    }

    pub fn data_type(&self) -> DataType
        ensures { result ≡ self.now.data_type }
    {
        self.data_type
    }

    pub fn fill_value(&self) -> &[u8]
        ensures value { result.now ≡ fill_of self.now }
        ensures len { length result.now ≡ element_size self.now }
    {
        &self.fill[..self.data_type.size()]
    }

    // How many elements the array has.
    pub fn elements(&self) -> usize
        ensures exact { result ≡ product (shape_of self.now) }
        ensures counted { result ≡ count (on self.now.lengths) self.now.dims }
    {
        self.shape().iter().product()
    }

    // How many bytes the array has.
    pub fn bytes(&self) -> usize
        ensures exact { result ≡ product (shape_of self.now) * element_size self.now }
        ensures counted { result ≡ volume self.now.lengths self.now.dims (element_size self.now) }
        ensures few { result ≤ 4096 }
    {
        self.elements() * self.data_type.size()
    }
}
