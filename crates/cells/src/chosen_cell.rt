// A cell of either kind, chosen at run time.
ghost use Rattle.std.specs.Prelude.{◌≡◌};
ghost use Rattle.cells.specs.Cells.{Confined};
ghost use Rattle.cells.specs.Pages.{place};
ghost use Rattle.cells.specs.declared.chosen_cell.ChosenCell.TheVariants.{Slot as OneBuffer, Pages as Listed};

use crate::buffer::Buffer;
use crate::cell::Cell;
use crate::paged_cell::PagedCell;
use crate::slot::Slot;
use form::fault::Fault;

#[derive(Drop)]
pub enum ChosenCell<B: Buffer> {
    Slot(Slot<B>),
    Pages(PagedCell<B>),
}

impl<B: Buffer + Drop> ChosenCell<B> {
    // The buffer behind the cell.
    pub fn buffer(&self) -> &B
        ensures { elim self.now [ OneBuffer s ↦ result.now ≡ s.buffer | Listed p ↦ result.now ≡ p.buffer ] }
    {
        match self {
            ChosenCell::Slot(cell) => cell.buffer(),
            ChosenCell::Pages(cell) => cell.buffer(),
        }
    }
}

impl<B: Buffer + Drop> Cell for ChosenCell<B> {
    ghost value = { λ c. elim c [ OneBuffer s ↦ ⟦<Slot<B> as Cell>⟧.value s | Listed p ↦ ⟦<PagedCell<B> as Cell>⟧.value p ] };

    ghost capacity = { λ c. elim c [ OneBuffer s ↦ ⟦<Slot<B> as Cell>⟧.capacity s | Listed p ↦ ⟦<PagedCell<B> as Cell>⟧.capacity p ] };

    ghost behind = { λ c. elim c [ OneBuffer s ↦ ⟦<Slot<B> as Cell>⟧.behind s | Listed p ↦ ⟦<PagedCell<B> as Cell>⟧.behind p ] };

    ghost rewritten = { λ c n d. elim c [
      | OneBuffer s ↦ elim d [ OneBuffer t ↦ ⟦<Slot<B> as Cell>⟧.rewritten s n t | Listed q ↦ ⊥ ]
      | Listed p ↦ elim d [ OneBuffer t ↦ ⊥ | Listed q ↦ ⟦<PagedCell<B> as Cell>⟧.rewritten p n q ]
    ] };

    ghost confined = { λ c n d. elim c as (λ c. ⟦<ChosenCell<B> as Cell>⟧.rewritten c n d → Confined n (⟦<ChosenCell<B> as Cell>⟧.behind c) (⟦<ChosenCell<B> as Cell>⟧.behind d)) [
      | OneBuffer s ↦ elim d as (λ d. ⟦<ChosenCell<B> as Cell>⟧.rewritten (OneBuffer s) n d → Confined n (B.Buffer.bytes s.buffer) (⟦<ChosenCell<B> as Cell>⟧.behind d)) [ OneBuffer t ↦ λ h. ((λ m. m), h.1) | Listed q ↦ λ h. absurd h ]
      | Listed p ↦ elim d as (λ d. ⟦<ChosenCell<B> as Cell>⟧.rewritten (Listed p) n d → Confined n (B.Buffer.bytes p.buffer) (⟦<ChosenCell<B> as Cell>⟧.behind d)) [ OneBuffer t ↦ λ h. absurd h | Listed q ↦ λ h. (place p.pages.items, h.2) ]
    ] };

    fn length(&self) -> Option<usize> {
        match self {
            ChosenCell::Slot(cell) => cell.length(),
            ChosenCell::Pages(cell) => cell.length(),
        }
    }

    fn read(&self, offset: usize, count: usize, output: &mut [u8]) -> Result<usize, Fault> {
        match self {
            ChosenCell::Slot(cell) => cell.read(offset, count, output),
            ChosenCell::Pages(cell) => cell.read(offset, count, output),
        }
    }

    fn capacity(&self) -> usize {
        match self {
            ChosenCell::Slot(cell) => cell.capacity(),
            ChosenCell::Pages(cell) => cell.capacity(),
        }
    }

    fn replace(&mut self, bytes: &[u8]) -> Result<(), Fault> {
        match self {
            ChosenCell::Slot(cell) => cell.replace(bytes),
            ChosenCell::Pages(cell) => cell.replace(bytes),
        }
    }

    fn erase(&mut self) {
        match self {
            ChosenCell::Slot(cell) => cell.erase(),
            ChosenCell::Pages(cell) => cell.erase(),
        }
    }
}
