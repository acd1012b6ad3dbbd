// How many bytes a number has, by the unsigned type that holds it.
ghost use Rattle.std.specs.Prelude.{ℕ};
ghost use Rattle.groups.specs.Groups.{Narrow};
ghost use Rattle.std.proofs.Common.{lit≤};

// A trait with one impl for each width, and no const parameter: a number would not say that it is one to eight, and
// `Modular::new` and `Exclusive::new` ask nothing of their callers. `narrow` is given as a term, since others compute with it.
pub trait Width {
    const BYTES: usize;

    ghost BYTES: { ℕ };

    ghost narrow: { Narrow BYTES };
}

impl Width for u8 {
    const BYTES: usize = 1;

    ghost BYTES = { 1 };

    ghost narrow = { (lit≤ tt, lit≤ tt) };
}

impl Width for u16 {
    const BYTES: usize = 2;

    ghost BYTES = { 2 };

    ghost narrow = { (lit≤ tt, lit≤ tt) };
}

impl Width for u32 {
    const BYTES: usize = 4;

    ghost BYTES = { 4 };

    ghost narrow = { (lit≤ tt, lit≤ tt) };
}

impl Width for u64 {
    const BYTES: usize = 8;

    ghost BYTES = { 8 };

    ghost narrow = { (lit≤ tt, lit≤ tt) };
}
