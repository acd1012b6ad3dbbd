// Differences and running sums of elements that follow one another, in every group.
ghost use Rattle.std.specs.Prelude.{◌≡◌, ℕ, ◌/◌, ◌%◌, ◌<◌, List, [], ◌∷◌, length, refl};
ghost use Rattle.groups.specs.Groups.{Operations};
ghost use Rattle.difference.specs.Difference.{lessened, summed, first_stays, on_elements};

use crate::elements::{read, write};
use groups::group::Group;

// One of the two directions of the codec.
pub(crate) trait Direction {
    // What becomes of elements, where p stands before the first.
    ghost after: { Operations → ℕ → List ℕ → List ℕ };

    // What becomes of the element v, and what then stands before the next one.
    fn step<G: Group>(group: &G, v: u64, before: u64) -> (u64, u64)
        ensures { (vs : List ℕ) → after (G.Group.group group.now) before (v ∷ vs) ≡ result.0 ∷ after (G.Group.group group.now) result.1 vs };

    ghost none: { (o : Operations) (p : ℕ) → after o p [] ≡ [] };
}

pub(crate) struct Differences;

impl Direction for Differences {
    ghost after = { lessened };

    ghost none = { λ o p. refl };

    fn step<G: Group>(group: &G, v: u64, before: u64) -> (u64, u64) {
        (group.less(v, before), v)
    }
}

pub(crate) struct Sums;

impl Direction for Sums {
    ghost after = { summed };

    ghost none = { λ o p. refl };

    fn step<G: Group>(group: &G, v: u64, before: u64) -> (u64, u64) {
        let sum = group.plus(v, before);
        (sum, sum)
    }
}

// Turns the elements of an array in one of the directions.
pub(crate) fn turn<D: Direction, G: Group>(group: &G, array: &mut [u8])
    requires some { 0 < length array.old }
    requires whole { length array.old % (G.Group.group group.now).width ≡ 0 }
    ensures { let o = G.Group.group group.now in array.new ≡ on_elements (first_stays (D.after o)) o.width (length array.old / o.width) array.old }
{
    let w = group.width();
    let count = array.len() / w;
    let mut before = read(&array[..w]);
    // By index: of what is written through chunks_exact_mut a proof knows only the length.
    for e in 1..count {
        let element = &mut array[e * w..(e + 1) * w];
        let (turned, next) = D::step(group, read(element), before);
        write(element, turned);
        before = next;
    }
}
