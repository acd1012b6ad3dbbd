// A cell in one buffer.
ghost use Rattle.std.specs.Prelude.{◌≡◌, ◌≤◌, length, None, cond};
ghost use Rattle.form.specs.Refusals.{told};
ghost use Rattle.cells.specs.Cells.{marked, marked_count, RestKept, slot_capacity, slot_fits, check_answer};

use crate::buffer::Buffer;
use crate::cell::{Cell, Mark, read_count};
use form::fault::Fault;

// The most bytes that a slot holds, however long its buffer is.
const MAX_CAPACITY: usize = 4096;

#[derive(Drop)]
pub struct Slot<B: Buffer> {
    buffer: B,
    capacity: usize,
    // how many of the buffer's first bytes are the value, if it is not absent
    mark: Mark,
    ghost inside: { capacity ≤ length (B.Buffer.bytes buffer) },
    ghost marked: { marked_count mark ≤ capacity },
}

// Whether a slot in a buffer of so many bytes can have the marked value.
pub fn check_slot(size: usize, mark: Mark) -> Result<(), Fault>
    ensures { told result ≡ check_answer (slot_fits size mark) }
{
    if mark.unwrap_or(0) > size.min(MAX_CAPACITY) {
        return Err(Fault::CellLayout);
    }
    Ok(())
}

impl<B: Buffer + Drop> Slot<B> {
    // A slot with the marked value. Where the check refuses it is absent, and has no capacity.
    pub fn new(buffer: B, mark: Mark) -> Slot<B>
        ensures buffer { result.buffer ≡ buffer }
        ensures capacity { ⟦<Slot<B> as Cell>⟧.capacity result ≡ cond (slot_fits (length (B.Buffer.bytes buffer)) mark) (slot_capacity (length (B.Buffer.bytes buffer))) 0 }
        ensures value { ⟦<Slot<B> as Cell>⟧.value result ≡ cond (slot_fits (length (B.Buffer.bytes buffer)) mark) (marked mark (B.Buffer.bytes buffer)) None }
    {
        let size = buffer.as_slice().len();
        match check_slot(size, mark) {
            Ok(()) => Slot {
                buffer,
                capacity: size.min(MAX_CAPACITY),
                mark,
            },
            Err(_) => Slot {
                buffer,
                capacity: 0,
                mark: None,
            },
        }
    }

    // The buffer behind the cell.
    pub fn buffer(&self) -> &B
        ensures { result.now ≡ self.now.buffer }
    {
        &self.buffer
    }
}

impl<B: Buffer + Drop> Cell for Slot<B> {
    ghost value = { λ s. marked s.mark (B.Buffer.bytes s.buffer) };

    ghost capacity = { λ s. s.capacity };

    ghost behind = { λ s. B.Buffer.bytes s.buffer };

    ghost rewritten = { λ s n t. (B.Buffer.lender t.buffer ≡ B.Buffer.lender s.buffer) × RestKept (λ m. m) n (B.Buffer.bytes s.buffer) (B.Buffer.bytes t.buffer) };

    ghost confined = { λ s n t h. ((λ m. m), h.1) };

    fn length(&self) -> Option<usize> {
        self.mark
    }

    fn read(&self, offset: usize, count: usize, output: &mut [u8]) -> Result<usize, Fault> {
        let count = read_count(self.length(), offset, count, output.len())?;
        output[..count].copy_from_slice(&self.buffer.as_slice()[offset..offset + count]);
        Ok(count)
    }

    fn capacity(&self) -> usize {
        self.capacity
    }

    #[tactic(auto, using(crate::proofs::Overwriting::front_written))]
    fn replace(&mut self, bytes: &[u8]) -> Result<(), Fault> {
        let count = bytes.len();
        if count > self.capacity {
            return Err(Fault::Capacity);
        }
        self.buffer.put(0, bytes);
        self.mark = Some(count);
        Ok(())
    }

    fn erase(&mut self) {
        self.mark = None;
    }
}
