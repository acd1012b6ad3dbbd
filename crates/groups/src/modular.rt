// The integers modulo 2 ^ (8 * w), where W is w bytes wide.
ghost use Rattle.std.specs.Prelude.{◌≡◌, ◌+◌, ◌^◌};
ghost use Rattle.groups.specs.Groups.{modular};
ghost use Rattle.groups.specs.Modulo.{modular_laws};

use crate::group::Group;
use crate::width::Width;
use std::marker::PhantomData;

#[derive(Clone, Copy)]
pub struct Modular<W> {
    width: PhantomData<W>,
}

impl<W> Modular<W> {
    pub fn new() -> Modular<W> {
        Modular { width: PhantomData }
    }
}

// The largest number that is as wide as W.
fn top<W: Width>() -> u64
    ensures { result + 1 ≡ 256 ^ W.Width.BYTES }
{
    u64::MAX >> (64 - 8 * W::BYTES)
}

impl<W: Width> Group for Modular<W> {
    ghost group = { λ _. modular W.Width.BYTES };

    ghost lawful = { λ s. modular_laws W.Width.BYTES W.Width.narrow };

    fn width(&self) -> usize {
        W::BYTES
    }

    fn plus(&self, a: u64, b: u64) -> u64 {
        a.wrapping_add(b) & top::<W>()
    }

    fn less(&self, a: u64, b: u64) -> u64 {
        a.wrapping_sub(b) & top::<W>()
    }
}
