// Four byte codecs in their seats, as one codec.
ghost use Rattle.std.specs.Prelude.{◌≡◌};
ghost use Rattle.chain_draft.specs.Laws.{four_laws};
ghost use Rattle.chain_draft.specs.Seal.{in_seats};

use byte_codecs::byte_codec::ByteCodec;
use form::fault::Fault;
use pair::Pair;
use stage::capability::PartialDecoderCapability;
use stage::codec::Codec;

// A struct of its own, which does what the pair in it does: the check takes no chain whose type has so many pairs and choices
// inside one another.
#[derive(Clone, Copy)]
pub struct ByteStages {
    seats: Pair<Pair<ByteCodec, ByteCodec>, Pair<ByteCodec, ByteCodec>>,
}

impl ByteStages {
    // The first encodes first.
    pub fn new(seats: [ByteCodec; 4]) -> ByteStages
        ensures { result.seats ≡ in_seats seats }
    {
        let [first, second, third, fourth] = seats;
        ByteStages {
            seats: Pair::new(Pair::new(fourth, third), Pair::new(second, first)),
        }
    }
}

impl Codec for ByteStages {
    type Decoded = usize;

    type Encoded = usize;

    ghost meaning = { λ s. ⟦<Pair<Pair<ByteCodec, ByteCodec>, Pair<ByteCodec, ByteCodec>> as Codec>⟧.meaning s.seats };

    ghost lawful = { λ s. four_laws s.seats };

    fn singles(&self) -> Option<usize> {
        self.seats.singles()
    }

    fn capability(&self, single: usize) -> Result<PartialDecoderCapability, Fault> {
        self.seats.capability(single)
    }

    fn coded(&self, form: &usize) -> Result<usize, Fault> {
        self.seats.coded(form)
    }

    fn size(&self, form: &usize, place: usize) -> Result<usize, Fault> {
        self.seats.size(form, place)
    }

    fn encode(&self, form: &usize, buf: &mut [u8], scratch: &mut [u8]) -> Result<usize, Fault> {
        self.seats.encode(form, buf, scratch)
    }

    fn undo(
        &self,
        form: &usize,
        from: usize,
        to: usize,
        checks: bool,
        buf: &mut [u8],
        scratch: &mut [u8],
    ) -> Result<usize, Fault> {
        self.seats.undo(form, from, to, checks, buf, scratch)
    }
}
