// The form of an array: its shape, its data type and its fill value.
ghost use Rattle.std.specs.Prelude.{◌≡◌, true};
ghost use Rattle.form.specs.Types.{size_of};
ghost use Rattle.form.specs.Shapes.{sound};

use crate::data_type::DataType;

// The first `dims` lengths are the shape, and the first bytes of `fill`, as many as an element has, are the fill value.
// `Form::new` sets the other lengths to 1 and the other bytes to 0.
// The counts stand beside arrays, since codecs copy forms, and an `ArrayVec` is not `Copy`.
#[derive(Clone, Copy)]
pub struct Form {
    pub lengths: [usize; 4],
    pub dims: usize,
    pub data_type: DataType,
    pub fill: [u8; 8],
    ghost ok: { sound lengths dims (size_of data_type) ≡ true },
}
