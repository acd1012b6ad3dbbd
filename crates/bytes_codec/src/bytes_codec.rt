// The bytes codec: the elements of an array, each as its bytes in a given order.
ghost use Rattle.std.specs.Prelude.{◌≡◌, ◌/◌, ◌%◌, ◌<◌, length};
ghost use Rattle.stage.specs.Arrays.{array_bytes};
ghost use Rattle.stage.specs.Calls.{SingleEncoded};
ghost use Rattle.bytes_codec.specs.ByteOrder.{swapped, byte_ordering, Writes, Reads, Back};
ghost use Rattle.bytes_codec.specs.Laws.{byte_ordering_laws, byte_ordering_arrays};

use form::array_form::Form;
use form::fault::Fault;
use stage::array_to_bytes::SingleArrayToBytesCodec;
use stage::capability::PartialDecoderCapability;
use stage::room::{enough, room};
use stage::single::SingleCodec;

// The order of an element's bytes.
#[derive(Clone, Copy, Debug, PartialEq, Eq)]
pub enum Endianness {
    // the least significant byte first, as arrays have them
    Little,
    // the most significant byte first
    Big,
}

#[derive(Clone, Copy)]
pub struct BytesCodec {
    // none where elements have a single byte
    endian: Option<Endianness>,
}

// Reverses the bytes of each element of an array.
fn swap(array: &mut [u8], size: usize)
    requires some { 0 < size }
    requires whole { length array.old % size ≡ 0 }
    ensures { array.new ≡ swapped size (length array.old / size) array.old }
{
    // By index: of what is written through chunks_exact_mut a proof knows only the length.
    for e in 0..array.len() / size {
        array[e * size..(e + 1) * size].reverse();
    }
}

impl BytesCodec {
    pub fn new(endian: Option<Endianness>) -> BytesCodec
        ensures { result.endian ≡ endian }
    {
        BytesCodec { endian }
    }

    pub fn endian(&self) -> Option<Endianness>
        ensures { result ≡ self.now.endian }
    {
        self.endian
    }

    // Puts the array in the front of a buffer into the byte order, or back: the same does both.
    fn order_front(&self, form: &Form, buf: &mut [u8], scratch: &[u8]) -> Result<usize, Fault>
        ensures { SingleEncoded array_bytes (λ n. n) (byte_ordering self.now.endian) form.now buf.old buf.new (length scratch.now) result }
    {
        let count = self.coded(form)?;
        room(buf, scratch)?;
        match self.endian {
            Some(Endianness::Big) => swap(&mut buf[..count], form.data_type().size()),
            Some(Endianness::Little) | None => {}
        }
        Ok(count)
    }
}

impl SingleCodec for BytesCodec {
    type Decoded = Form;

    type Encoded = usize;

    ghost coding = { λ s. byte_ordering s.endian };

    ghost lawful = { λ s. byte_ordering_laws s.endian };

    fn capability(&self) -> PartialDecoderCapability {
        PartialDecoderCapability::BY_PARTS
    }

    fn coded(&self, form: &Form) -> Result<usize, Fault> {
        if self.endian.is_none() && form.data_type().size() > 1 {
            return Err(Fault::Endianness);
        }
        Ok(form.bytes())
    }

    fn encode(&self, form: &Form, buf: &mut [u8], scratch: &mut [u8]) -> Result<usize, Fault> {
        self.order_front(form, buf, scratch)
    }

    fn decode(&self, form: &Form, buf: &mut [u8], scratch: &mut [u8]) -> Result<usize, Fault> {
        self.order_front(form, buf, scratch)
    }

    fn test(&self, form: &Form, buf: &[u8]) -> Result<bool, Fault> {
        self.coded(form)?;
        enough(buf)?;
        Ok(true)
    }
}

impl SingleArrayToBytesCodec for BytesCodec {
    ghost keeps = { λ s. byte_ordering_arrays s.endian };
}

// What is proved of the format: which elements the bytes write, which elements are read from bytes, and that decoding gives the
// array back.
pub fn byte_order_stands()
    ensures writes { Writes }
    ensures reads { Reads }
    ensures back { Back }
{}
