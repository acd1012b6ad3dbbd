// Worked figures, computed from the definitions of the codecs and of open chunks.
#![tactic(auto)]

ghost use Rattle.figures.specs.Figures.{Figures};

#[tactic(auto, unfolding(subset::specs::Subsets::joined, subset::specs::Subsets::subset_of, subset::specs::Subsets::put_subset))]
pub fn figures_hold()
    ensures { Figures }
{}
