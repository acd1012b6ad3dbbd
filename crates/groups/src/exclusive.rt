// The exclusive or of bits, of numbers as wide as W. A type beside `Modular`, and not one of both over an operation: what they
// share is a marker and the width, and a trait of operations would be as long again.
ghost use Rattle.groups.specs.Groups.{exclusive};
ghost use Rattle.groups.specs.Bitwise.{exclusive_laws};

use crate::group::Group;
use crate::width::Width;
use std::marker::PhantomData;

#[derive(Clone, Copy)]
pub struct Exclusive<W> {
    width: PhantomData<W>,
}

impl<W> Exclusive<W> {
    pub fn new() -> Exclusive<W> {
        Exclusive { width: PhantomData }
    }
}

impl<W: Width> Group for Exclusive<W> {
    ghost group = { λ _. exclusive W.Width.BYTES };

    ghost lawful = { λ s. exclusive_laws W.Width.BYTES W.Width.narrow };

    fn width(&self) -> usize {
        W::BYTES
    }

    fn plus(&self, a: u64, b: u64) -> u64 {
        a ^ b
    }

    // What is added twice is gone.
    fn less(&self, a: u64, b: u64) -> u64 {
        self.plus(a, b)
    }
}
