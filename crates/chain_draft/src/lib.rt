// A draft of a chain of codecs, which is filled at run time.
#![tactic(auto)]

ghost use Rattle.std.specs.Prelude.{◌≡◌, ⊤, [], Some, None, OnErr};
ghost use Rattle.form.specs.Answers.{Answers};
ghost use Rattle.transpose.specs.Transpose.{order_refusal};
ghost use Rattle.shuffle.specs.Shuffle.{size_refusal};
ghost use Rattle.chain_draft.specs.Draft.{NoCodecs, room_refusal, array_refusal, bytes_refusal, byte_refusal, IsTranspose, IsDifference, IsShuffle, IsFletcher32, ArrayCodecAdded, BytesCodecAdded, ByteCodecAdded};

use array_codecs::array_codec::{self, ArrayCodec};
use arrayvec::ArrayVec;
use byte_codecs::byte_codec::{self, ByteCodec};
use bytes_codec::bytes_codec::{BytesCodec, Endianness};
use difference::difference_codec::DifferenceCodec;
use fletcher32::fletcher32_codec::Fletcher32Codec;
use form::fault::Fault;
use shuffle::shuffle_codec::ShuffleCodec;
use transpose::transpose_codec::TransposeCodec;

pub mod byte_stages;
pub mod sealing;

// What a chain will have: up to two codecs from arrays to arrays, one from arrays to bytes, and up to four from bytes to bytes,
// each list in encode order.
#[derive(Drop)]
pub struct ChainDraft {
    array_to_array: ArrayVec<ArrayCodec, 2>,
    array_to_bytes: Option<BytesCodec>,
    bytes_to_bytes: ArrayVec<ByteCodec, 4>,
}

// Refuses another codec where the list is full.
fn room<C, const N: usize>(codecs: &ArrayVec<C, N>) -> Result<(), Fault>
    ensures { Answers (room_refusal N codecs.now None) (λ _. ⊤) result }
{
    if codecs.is_full() {
        return Err(Fault::NoRoom);
    }
    Ok(())
}

impl ChainDraft {
    // A draft with no codecs.
    pub fn new() -> ChainDraft
        ensures { NoCodecs result }
    {
        ChainDraft {
            array_to_array: ArrayVec::new(),
            array_to_bytes: None,
            bytes_to_bytes: ArrayVec::new(),
        }
    }

    // Refuses what comes before the bytes codec, once that is there.
    fn before_bytes(&self) -> Result<(), Fault>
        ensures { Answers (bytes_refusal self.now) (λ _. ⊤) result }
    {
        if self.array_to_bytes.is_some() {
            return Err(Fault::CodecOrder);
        }
        Ok(())
    }

    // Refuses another array codec.
    fn array_room(&self) -> Result<(), Fault>
        ensures { Answers (array_refusal self.now None) (λ _. ⊤) result }
    {
        self.before_bytes()?;
        room(&self.array_to_array)
    }

    // Refuses another byte codec, and any before the bytes codec.
    fn byte_room(&self) -> Result<(), Fault>
        ensures { Answers (byte_refusal self.now None) (λ _. ⊤) result }
    {
        if self.array_to_bytes.is_none() {
            return Err(Fault::CodecOrder);
        }
        room(&self.bytes_to_bytes)
    }

    // Adds a transposition by an order of the axes.
    pub fn add_transpose(&mut self, order: &[usize]) -> Result<(), Fault>
        ensures answer { Answers (array_refusal self.old (order_refusal order.now)) (λ _. ArrayCodecAdded (IsTranspose order.now) self.old self.new) result }
        ensures same { OnErr result (self.new ≡ self.old) }
    {
        self.array_room()?;
        let codec = TransposeCodec::new(order)?;
        self.array_to_array.push(array_codec::transpose(codec));
        Ok(())
    }

    // Adds the differences.
    pub fn add_difference(&mut self) -> Result<(), Fault>
        ensures answer { Answers (array_refusal self.old None) (λ _. ArrayCodecAdded IsDifference self.old self.new) result }
        ensures same { OnErr result (self.new ≡ self.old) }
    {
        self.array_room()?;
        let codec = DifferenceCodec::new();
        self.array_to_array.push(array_codec::difference(codec));
        Ok(())
    }

    // Adds the bytes codec, by a byte order.
    pub fn set_bytes(&mut self, endian: Option<Endianness>) -> Result<(), Fault>
        ensures answer { Answers (bytes_refusal self.old) (λ _. BytesCodecAdded endian self.old self.new) result }
        ensures same { OnErr result (self.new ≡ self.old) }
    {
        self.before_bytes()?;
        self.array_to_bytes = Some(BytesCodec::new(endian));
        Ok(())
    }

    // Adds a shuffle of elements of so many bytes.
    pub fn add_shuffle(&mut self, elementsize: usize) -> Result<(), Fault>
        ensures answer { Answers (byte_refusal self.old (size_refusal elementsize)) (λ _. ByteCodecAdded (IsShuffle elementsize) self.old self.new) result }
        ensures same { OnErr result (self.new ≡ self.old) }
    {
        self.byte_room()?;
        let codec = ShuffleCodec::new(elementsize)?;
        self.bytes_to_bytes.push(byte_codec::shuffle(codec));
        Ok(())
    }

    // Adds a checksum.
    pub fn add_fletcher32(&mut self) -> Result<(), Fault>
        ensures answer { Answers (byte_refusal self.old None) (λ _. ByteCodecAdded IsFletcher32 self.old self.new) result }
        ensures same { OnErr result (self.new ≡ self.old) }
    {
        self.byte_room()?;
        let codec = Fletcher32Codec::new();
        self.bytes_to_bytes.push(byte_codec::fletcher32(codec));
        Ok(())
    }
}
