// The memory behind a cell.
ghost use Rattle.std.specs.Prelude.{◌≡◌, ◌+◌, ℕ, List, nat_le, vec_items};
ghost use Rattle.std.specs.Borrow.{GName};
ghost use Rattle.cells.specs.Cells.{put_at};

// Bytes that can be written in place, lent or owned.
pub trait Buffer {
    ghost bytes: { Self → List ℕ };

    // who lent it, which stays the same whatever is written
    ghost Lender: { Type 0 };

    ghost lender: { Self → Lender };

    fn as_slice(&self) -> &[u8]
        ensures { result.now ≡ bytes self.now };

    // Writes a part from a place on; where it does not fit nothing is written.
    fn put(&mut self, at: usize, part: &[u8])
        ensures bytes { bytes self.new ≡ put_at at part.now (bytes self.old) }
        ensures lender { lender self.new ≡ lender self.old };
}

// Whether so many bytes from a place on lie in a buffer of that size.
fn lies_in(size: usize, at: usize, count: usize) -> bool
    ensures { result ≡ nat_le (at + count) size }
{
    at <= size && count <= size - at
}

impl Buffer for &mut [u8] {
    ghost bytes = { λ b. b.now };

    ghost Lender = { GName };

    ghost lender = { λ b. b.ghost_name };

    fn as_slice(&self) -> &[u8] {
        &**self
    }

    fn put(&mut self, at: usize, part: &[u8]) {
        if lies_in(self.len(), at, part.len()) {
            self[at..at + part.len()].copy_from_slice(part);
        }
    }
}

impl Buffer for Vec<u8> {
    ghost bytes = { λ v. vec_items v };

    ghost Lender = { Unit {0} };

    ghost lender = { λ _. tt };

    fn as_slice(&self) -> &[u8] {
        Vec::as_slice(self)
    }

    fn put(&mut self, at: usize, part: &[u8]) {
        if lies_in(self.len(), at, part.len()) {
            self.as_mut_slice()[at..at + part.len()].copy_from_slice(part);
        }
    }
}
