// The stages that a session codes with.
ghost use Rattle.chunkctl.specs.Stages.{Built};

use crate::command::Run;
use base_codecs::single::Single;
use bytes_codec::bytes_codec::BytesCodec;
use chain_draft::ChainDraft;
use chain_draft::byte_stages::ByteStages;
use chain_draft::sealing::{ArrayStages, FittedSealedChain};
use form::fault::Fault;
use stage_names::drafting::add_stages;

// Stages of one kind, or a chain with the form that it codes.
#[derive(Drop)]
pub enum Stages {
    ArrayToArray(ArrayStages),
    ArrayToBytes(Single<BytesCodec>),
    BytesToBytes(ByteStages),
    Chain(FittedSealedChain),
}

// The stages of a run, of which a draft has those before or behind the bytes codec.
pub fn built(run: &Run) -> Result<Stages, Fault>
    ensures { Built run.now result }
{
    Ok(match run {
        Run::ArrayToArray(names) => {
            let draft = add_stages(ChainDraft::new(), names.as_slice())?;
            Stages::ArrayToArray(draft.array_stages())
        }
        Run::ArrayToBytes(endian) => Stages::ArrayToBytes(Single::new(BytesCodec::new(*endian))),
        Run::BytesToBytes(names) => {
            let mut draft = ChainDraft::new();
            draft.set_bytes(None)?;
            let draft = add_stages(draft, names.as_slice())?;
            Stages::BytesToBytes(draft.byte_stages())
        }
    })
}
