// What a single coding can do for a part of an array.
#[derive(Clone, Copy)]
pub struct PartialDecoderCapability {
    // parts of its input are enough to decode a part
    pub partial_read: bool,
    // a part can be decoded without decoding the whole
    pub partial_decode: bool,
}

impl PartialDecoderCapability {
    // All of the input is read, and all of it is decoded.
    pub const WHOLE_ONLY: PartialDecoderCapability = PartialDecoderCapability {
        partial_read: false,
        partial_decode: false,
    };

    // A part can be read and decoded by itself.
    pub const BY_PARTS: PartialDecoderCapability = PartialDecoderCapability {
        partial_read: true,
        partial_decode: true,
    };
}
