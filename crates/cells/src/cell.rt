// The cell: where the stored bytes of a chunk lie.
ghost use Rattle.std.specs.Prelude.{◌≡◌, ◌≤◌, ◌+◌, ℕ, List, length, Some, None, IfOk, OnErr, option_map};
ghost use Rattle.form.specs.Refusals.{told};
ghost use Rattle.stage.specs.Calls.{written};
ghost use Rattle.cells.specs.Cells.{Value, Confined, bytes_of, marked_count, part, read_answer, replace_answer};

use form::fault::Fault;

// What gives a new cell its value: absent, or so many of its first bytes.
pub type Mark = Option<usize>;

// A cell's value is absent or a list of bytes, and its capacity never changes.
pub trait Cell {
    ghost value: { Self → Value };

    ghost capacity: { Self → ℕ };

    // the bytes of the buffer behind
    ghost behind: { Self → List ℕ };

    // a cell before and after so many first bytes of a value were written: the same buffer behind it, changed only where these
    // lie; each cell says where
    ghost rewritten: { Self → ℕ → Self → Type 0 };

    // How many bytes the value has, if it is not absent.
    fn length(&self) -> Option<usize>
        ensures { result ≡ option_map length (value self.now) };

    // Copies bytes of the value, so many from the offset on, to the front of the output.
    fn read(&self, offset: usize, count: usize, output: &mut [u8]) -> Result<usize, Fault>
        ensures answer { told result ≡ read_answer (option_map length (value self.now)) offset count (length output.old) }
        ensures bytes { output.new ≡ written result (part offset count (bytes_of (value self.now))) output.old };

    // The longest value that the cell can hold.
    fn capacity(&self) -> usize
        ensures { result ≡ capacity self.now };

    // Makes the bytes the value.
    fn replace(&mut self, bytes: &[u8]) -> Result<(), Fault>
        ensures answer { told result ≡ replace_answer (capacity self.old) (length bytes.now) }
        ensures value { IfOk result (λ _. value self.new ≡ Some bytes.now) }
        ensures capacity { capacity self.new ≡ capacity self.old }
        ensures buffer { IfOk result (λ _. rewritten self.old (length bytes.now) self.new) }
        ensures same { OnErr result (self.new ≡ self.old) };

    // Makes the value absent.
    fn erase(&mut self)
        ensures value { value self.new ≡ None }
        ensures capacity { capacity self.new ≡ capacity self.old }
        ensures buffer { rewritten self.old 0 self.new };

    ghost confined: { (s : Self) (n : ℕ) (t : Self) → rewritten s n t → Confined n (behind s) (behind t) };
}

// How many bytes a read copies: so many from the offset on, of a value of that length, into so much room.
pub(crate) fn read_count(
    length: Option<usize>,
    offset: usize,
    count: usize,
    room: usize,
) -> Result<usize, Fault>
    ensures answer { told result ≡ read_answer length offset count room }
    ensures inside { IfOk result (λ n. (n ≡ count) × (offset + count ≤ marked_count length) × (count ≤ room)) }
{
    let length = length.ok_or(Fault::Absent)?;
    if offset > length || count > length - offset {
        return Err(Fault::ByteRange);
    }
    if count > room {
        return Err(Fault::BufferShort);
    }
    Ok(count)
}
