// What codecs from arrays to arrays keep.
ghost use Rattle.stage.specs.Arrays.{ArrayLaws, array_bytes};
ghost use Rattle.stage.specs.Single.{single};

use crate::codec::Codec;
use crate::single::SingleCodec;
use form::array_form::Form;

pub trait ArrayToArrayCodec: Codec<Decoded = Form, Encoded = Form> {
    ghost keeps: { (s : Self) → ArrayLaws (Self.Codec.meaning s) };
}

// The same of a codec of one single coding, in a trait of its own: this law speaks of a coding, the other of a stage.
pub trait SingleArrayToArrayCodec: SingleCodec<Decoded = Form, Encoded = Form> {
    ghost keeps: { (s : Self) → ArrayLaws (single array_bytes array_bytes (Self.SingleCodec.coding s)) };
}
