// What codecs from arrays to bytes keep.
ghost use Rattle.stage.specs.Arrays.{ArrayToBytesLaws, array_bytes};
ghost use Rattle.stage.specs.Single.{single};

use crate::codec::Codec;
use crate::single::SingleCodec;
use form::array_form::Form;

pub trait ArrayToBytesCodec: Codec<Decoded = Form, Encoded = usize> {
    ghost keeps: { (s : Self) → ArrayToBytesLaws (Self.Codec.meaning s) };
}

// The same of a codec of one single coding, as for codecs from arrays to arrays.
pub trait SingleArrayToBytesCodec: SingleCodec<Decoded = Form, Encoded = usize> {
    ghost keeps: { (s : Self) → ArrayToBytesLaws (single array_bytes (λ n. n) (Self.SingleCodec.coding s)) };
}
