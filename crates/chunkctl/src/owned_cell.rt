// The session's cell, which owns the buffer behind it.
ghost use Rattle.std.specs.Prelude.{◌≡◌, ℕ, vec_len, vec_items};
ghost use Rattle.form.specs.Refusals.{told};
ghost use Rattle.cells.specs.Cells.{check_answer};
ghost use Rattle.cells.specs.Pages.{place};
ghost use Rattle.cells.specs.declared.chosen_cell.ChosenCell.TheVariants.{Slot as OneBuffer, Pages as Listed};
ghost use Rattle.chunkctl.specs.Layouts.{layout_fits, MadeAs};

use crate::command::Layout;
use cells::cell::{Cell, Mark};
use cells::chosen_cell::ChosenCell;
use cells::paged_cell::{PagedCell, check_pages};
use cells::slot::{Slot, check_slot};
use form::fault::Fault;

pub type OwnedCell = ChosenCell<Vec<u8>>;

// Where in its buffer each byte of a cell's value lies, which no function tells: what is promised of a new cell speaks of it.
pub trait Placed {
    ghost place: { Self → ℕ → ℕ };
}

impl Placed for ChosenCell<Vec<u8>> {
    ghost place = { λ c. elim c [ OneBuffer s ↦ λ m. m | Listed p ↦ place p.pages.items ] };
}

// Whether a cell so laid out in so many bytes can have the marked value.
pub fn check_layout(size: usize, layout: &Layout, mark: Mark) -> Result<(), Fault>
    ensures { told result ≡ check_answer (layout_fits size layout.now mark) }
{
    match layout {
        Layout::Slot => check_slot(size, mark),
        Layout::Pages(pages) => check_pages(size, pages.as_slice(), mark),
    }
}

// A cell so laid out with the marked value. Where the check refuses it is absent, and has no capacity.
pub fn new_cell(buffer: Vec<u8>, layout: &Layout, mark: Mark) -> OwnedCell
    ensures { MadeAs ⟦<OwnedCell as Cell>⟧.value ⟦<OwnedCell as Cell>⟧.capacity ⟦<OwnedCell as Cell>⟧.behind ⟦<OwnedCell as Placed>⟧.place (vec_len buffer) layout.now mark (vec_items buffer) result }
{
    match layout {
        Layout::Slot => ChosenCell::Slot(Slot::new(buffer, mark)),
        Layout::Pages(pages) => ChosenCell::Pages(PagedCell::new(buffer, pages.as_slice(), mark)),
    }
}
