// A codec from arrays to arrays that is chosen at run time.
ghost use Rattle.std.specs.Prelude.{◌≡◌};
ghost use Rattle.stage.specs.Arrays.{array_bytes};
ghost use Rattle.stage.specs.Single.{single};
ghost use Rattle.base_codecs.specs.declared.chosen.Chosen.TheVariants.{First, Second};
ghost use Rattle.transpose.specs.Transpose.{transposing};
ghost use Rattle.difference.specs.Difference.{differencing};
ghost use Rattle.array_codecs.specs.Chosen.{chosen_array};

use base_codecs::chosen::Chosen;
use base_codecs::empty::Empty;
use base_codecs::single::Single;
use difference::difference_codec::DifferenceCodec;
use form::array_form::Form;
use stage::codec::Codec;
use transpose::transpose_codec::TransposeCodec;

pub type ArrayCodec = Chosen<Empty<Form>, Chosen<Single<TransposeCodec>, Single<DifferenceCodec>>>;

// The choices by their names, each a function of its own since the name is all that it adds; that of the codec that changes
// nothing is `empty`.
pub fn transpose(codec: TransposeCodec) -> ArrayCodec
    ensures value { result ≡ Second (First (record { codec = codec })) }
    ensures meaning { ⟦<ArrayCodec as Codec>⟧.meaning result ≡ single array_bytes array_bytes (transposing codec.order codec.dims) }
{
    Chosen::Second(Chosen::First(Single::new(codec)))
}

pub fn difference(codec: DifferenceCodec) -> ArrayCodec
    ensures value { result ≡ Second (Second (record { codec = codec })) }
    ensures meaning { ⟦<ArrayCodec as Codec>⟧.meaning result ≡ single array_bytes array_bytes differencing }
{
    Chosen::Second(Chosen::Second(Single::new(codec)))
}

// What a choice means is what the chosen codec means.
pub fn array_choice_stands(codec: &ArrayCodec)
    ensures { ⟦<ArrayCodec as Codec>⟧.meaning codec.now ≡ chosen_array codec.now }
{}
