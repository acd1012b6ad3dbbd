// The difference codec: each element less the one before it.
ghost use Rattle.std.specs.Prelude.{◌≡◌, length};
ghost use Rattle.stage.specs.Calls.{FrontTurned};
ghost use Rattle.stage.specs.Arrays.{element_count, array_bytes};
ghost use Rattle.difference.specs.Difference.{group_of, first_stays, on_elements, differencing, Differs, Adds, Recodes};
ghost use Rattle.difference.specs.Laws.{differencing_laws, differencing_arrays};

use crate::differences::{Differences, Direction, Sums, turn};
use form::array_form::Form;
use form::data_type::DataType;
use form::fault::Fault;
use groups::exclusive::Exclusive;
use groups::modular::Modular;
use stage::array_to_array::SingleArrayToArrayCodec;
use stage::capability::PartialDecoderCapability;
use stage::codec::Representation;
use stage::room::{enough, room};
use stage::single::SingleCodec;

// Turns an array in one of the directions, in the group of its data type. Each arm calls the one loop at another type; with a
// `dyn Group` the same match would choose the group.
fn turn_array<D: Direction>(form: &Form, array: &mut [u8])
    requires { length array.old ≡ array_bytes form.now }
    ensures { let o = group_of form.now.data_type in array.new ≡ on_elements (first_stays (D.after o)) o.width (element_count form.now) array.old }
{
    match form.data_type() {
        DataType::UInt8 | DataType::Int8 => turn::<D, _>(&Modular::<u8>::new(), array),
        DataType::UInt16 | DataType::Int16 => turn::<D, _>(&Modular::<u16>::new(), array),
        DataType::UInt32 | DataType::Int32 => turn::<D, _>(&Modular::<u32>::new(), array),
        DataType::UInt64 | DataType::Int64 => turn::<D, _>(&Modular::<u64>::new(), array),
        DataType::Float32 => turn::<D, _>(&Exclusive::<u32>::new(), array),
        DataType::Float64 => turn::<D, _>(&Exclusive::<u64>::new(), array),
    }
}

// The same of the array in the front of a buffer.
fn turn_front<D: Direction>(form: &Form, buf: &mut [u8], scratch: &[u8]) -> Result<usize, Fault>
    ensures { let o = group_of form.now.data_type in FrontTurned (on_elements (first_stays (D.after o)) o.width (element_count form.now)) (array_bytes form.now) buf.old buf.new (length scratch.now) result }
{
    room(buf, scratch)?;
    let size = form.bytes();
    turn_array::<D>(form, &mut buf[..size]);
    Ok(size)
}

#[derive(Clone, Copy)]
pub struct DifferenceCodec;

impl DifferenceCodec {
    pub fn new() -> DifferenceCodec {
        DifferenceCodec
    }
}

impl SingleCodec for DifferenceCodec {
    type Decoded = Form;

    type Encoded = Form;

    ghost coding = { λ _. differencing };

    ghost lawful = { λ s. differencing_laws };

    fn capability(&self) -> PartialDecoderCapability {
        PartialDecoderCapability::WHOLE_ONLY
    }

    fn coded(&self, form: &Form) -> Result<Form, Fault> {
        Ok(*form)
    }

    fn encode(&self, form: &Form, buf: &mut [u8], scratch: &mut [u8]) -> Result<usize, Fault> {
        turn_front::<Differences>(form, buf, scratch)
    }

    fn decode(&self, form: &Form, buf: &mut [u8], scratch: &mut [u8]) -> Result<usize, Fault> {
        turn_front::<Sums>(form, buf, scratch)
    }

    fn test(&self, _form: &Form, buf: &[u8]) -> Result<bool, Fault> {
        enough(buf)?;
        Ok(true)
    }
}

impl SingleArrayToArrayCodec for DifferenceCodec {
    ghost keeps = { λ s. differencing_arrays };
}

// What is proved of the format: what each element becomes, where arrays are encoded and where any bytes are decoded, and that
// encoding what was decoded gives it back.
pub fn difference_stands()
    ensures differs { Differs }
    ensures adds { Adds }
    ensures recodes { Recodes }
{}
