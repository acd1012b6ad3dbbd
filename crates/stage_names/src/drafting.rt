// Named stages in a draft of a chain.
ghost use Rattle.std.specs.Prelude.{◌≡◌, map, IfOk, OnErr};
ghost use Rattle.std.specs.Result.{result_map_both};
ghost use Rattle.form.specs.Answers.{Answers};
ghost use Rattle.stage_names.specs.Names.{said_array, said_byte, said_stage};
ghost use Rattle.stage_names.specs.Drafting.{add_refusal, Added, AddedAll, Chained};

use crate::name::{ArrayName, ByteName, StageName};
use chain_draft::ChainDraft;
use chain_draft::sealing::FittedSealedChain;
use form::array_form::Form;
use form::fault::Fault;

impl ArrayName {
    fn add_to(&self, draft: &mut ChainDraft) -> Result<(), Fault>
        ensures answer { Answers (add_refusal draft.old (said_array self.now)) (λ _. Added (said_array self.now) draft.old draft.new) result }
        ensures same { OnErr result (draft.new ≡ draft.old) }
    {
        match self {
            ArrayName::Transpose(order) => draft.add_transpose(order.as_slice()),
            ArrayName::Difference => draft.add_difference(),
        }
    }
}

impl ByteName {
    fn add_to(&self, draft: &mut ChainDraft) -> Result<(), Fault>
        ensures answer { Answers (add_refusal draft.old (said_byte self.now)) (λ _. Added (said_byte self.now) draft.old draft.new) result }
        ensures same { OnErr result (draft.new ≡ draft.old) }
    {
        match self {
            ByteName::Shuffle(size) => draft.add_shuffle(*size),
            ByteName::Fletcher32 => draft.add_fletcher32(),
        }
    }
}

impl StageName {
    // Adds the stage to a draft.
    pub fn add_to(&self, draft: &mut ChainDraft) -> Result<(), Fault>
        ensures answer { Answers (add_refusal draft.old (said_stage self.now)) (λ _. Added (said_stage self.now) draft.old draft.new) result }
        ensures same { OnErr result (draft.new ≡ draft.old) }
    {
        match self {
            StageName::ArrayToArray(name) => name.add_to(draft),
            StageName::ArrayToBytes(endian) => draft.set_bytes(*endian),
            StageName::BytesToBytes(name) => name.add_to(draft),
        }
    }
}

// The draft with stages added one by one, or the first refusal.
pub fn add_stages(mut draft: ChainDraft, names: &[StageName]) -> Result<ChainDraft, Fault>
    ensures { AddedAll draft (map said_stage names.now) result }
{
    for name in names {
        name.add_to(&mut draft)?;
    }
    Ok(draft)
}

// The chain of stages, fitted to a form.
pub fn chain_of(names: &[StageName], form: &Form) -> Result<FittedSealedChain, Fault>
    ensures made { Chained (map said_stage names.now) form.now (result_map_both (λ f. f.chain.stages) (λ e. e) result) }
    ensures form { IfOk result (λ f. f.form ≡ form.now) }
{
    let draft = add_stages(ChainDraft::new(), names)?;
    draft.seal()?.fit(form)
}
