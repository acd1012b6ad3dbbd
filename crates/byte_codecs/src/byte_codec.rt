// A byte codec that is chosen at run time.
ghost use Rattle.std.specs.Prelude.{◌≡◌};
ghost use Rattle.stage.specs.Single.{single};
ghost use Rattle.base_codecs.specs.declared.chosen.Chosen.TheVariants.{First, Second};
ghost use Rattle.shuffle.specs.Shuffle.{shuffling};
ghost use Rattle.fletcher32.specs.Fletcher32.{checksumming};
ghost use Rattle.byte_codecs.specs.Chosen.{chosen_stage};

use base_codecs::chosen::Chosen;
use base_codecs::empty::Empty;
use base_codecs::single::Single;
use fletcher32::fletcher32_codec::Fletcher32Codec;
use shuffle::shuffle_codec::ShuffleCodec;
use stage::codec::Codec;

pub type ByteCodec = Chosen<Empty<usize>, Chosen<Single<ShuffleCodec>, Single<Fletcher32Codec>>>;

// The choices by their names, each a function of its own since the name is all that it adds; that of the codec that changes
// nothing is `empty`.
pub fn shuffle(codec: ShuffleCodec) -> ByteCodec
    ensures value { result ≡ Second (First (record { codec = codec })) }
    ensures meaning { ⟦<ByteCodec as Codec>⟧.meaning result ≡ single (λ n. n) (λ n. n) (shuffling codec.elementsize) }
{
    Chosen::Second(Chosen::First(Single::new(codec)))
}

pub fn fletcher32(codec: Fletcher32Codec) -> ByteCodec
    ensures value { result ≡ Second (Second (record { codec = codec })) }
    ensures meaning { ⟦<ByteCodec as Codec>⟧.meaning result ≡ single (λ n. n) (λ n. n) checksumming }
{
    Chosen::Second(Chosen::Second(Single::new(codec)))
}

// What a choice means is what the chosen codec means.
pub fn byte_choice_stands(codec: &ByteCodec)
    ensures { ⟦<ByteCodec as Codec>⟧.meaning codec.now ≡ chosen_stage codec.now }
{}
