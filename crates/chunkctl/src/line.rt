// Lines of any bytes from a buffered input.
ghost use Rattle.std.specs.Prelude.{◌≡◌, ◌<◌, ◌-◌, ◌^◌, if◌then◌else◌, Some, IfOk, IsSome};
ghost use Rattle.chunkctl.specs.Lines.{Grown, silent};

use crate::trouble::Complaint;
use std::io;
use std::io::BufRead;
use text::words::{cut, next_word};

// The longest line that is kept.
const LONGEST: usize = 16_777_216;

// Adds a part to a line that is whole so far.
fn keep(kept: Result<(), Complaint>, line: &mut Vec<u8>, part: &[u8]) -> Result<(), Complaint>
    ensures { Grown kept line.old.items part.now line.new.items result }
{
    kept?;
    if part.len() > LONGEST || line.len() > LONGEST - part.len() {
        return Err(Complaint::LineTooLong);
    }
    line.extend_from_slice(part)?;
    Ok(())
}

// What a line has so far.
#[derive(Clone, Copy)]
enum Look {
    Nothing,
    Blanks,
    // it begins with #
    Comment,
    Words,
}

impl Look {
    // After one more part of the line.
    fn after(self, part: &[u8]) -> Look {
        match (self, part) {
            (Look::Nothing, []) => Look::Nothing,
            (Look::Nothing, [b'#', ..]) => Look::Comment,
            (Look::Nothing | Look::Blanks, _) => match next_word(part) {
                Some(_) => Look::Words,
                None => Look::Blanks,
            },
            (Look::Comment | Look::Words, _) => self,
        }
    }

    // Whether a line that ends here is passed over.
    fn silent(self) -> bool
        ensures { result ≡ silent self }
    {
        !matches!(self, Look::Words)
    }
}

// What is known of a line while it is read.
#[derive(Clone, Copy)]
struct Progress {
    kept: Result<(), Complaint>,
    look: Look,
}

impl Progress {
    const BEGUN: Progress = Progress {
        kept: Ok(()),
        look: Look::Nothing,
    };

    // After one more part of the line.
    fn after(self, line: &mut Vec<u8>, part: &[u8]) -> Progress
        ensures { Grown self.kept line.old.items part.now line.new.items result.kept }
    {
        Progress {
            kept: keep(self.kept, line, part),
            look: self.look.after(part),
        }
    }

    // How the line that ends here was kept, unless it is passed over.
    fn found(self) -> Option<Result<(), Complaint>>
        ensures { result ≡ (if silent self.look then None else Some self.kept) }
    {
        (!self.look.silent()).then_some(self.kept)
    }
}

// Reads the next line that is neither blank nor a comment, without its newline, or says why it is not kept; the rest of it
// is skipped then. A line ends where the input does, too; behind one that is passed over there it is read once more, as a
// terminal may have more then. Three layers: the input fails, it ends, or a line of it is not kept.
fn next_line<R: BufRead>(
    reader: &mut R,
    line: &mut Vec<u8>,
) -> io::Result<Option<Result<(), Complaint>>> {
    line.clear();
    let mut progress = Progress::BEGUN;
    // a count bounds this loop as it does the library's own: an input may have no end
    for _ in 0..u64::MAX {
        let held = reader.fill_buf()?;
        let at_end = held.is_empty();
        if at_end && matches!(progress.look, Look::Nothing) {
            return Ok(None);
        }
        let (part, rest) = cut(held, b'\n');
        progress = progress.after(line, part);
        let at_newline = rest.is_some();
        let used = part.len() + usize::from(at_newline);
        reader.consume(used);
        if at_newline || at_end {
            let found = progress.found();
            if found.is_some() {
                return Ok(found);
            }
            line.clear();
            progress = Progress::BEGUN;
        }
    }
    Ok(progress.found())
}

// The lines of an input that are neither blank nor comments.
#[derive(Drop)]
pub struct Lines<R> {
    reader: R,
    // how many may still be read, since an input may have no end
    left: u64,
}

impl<R> Lines<R> {
    pub fn new(reader: R) -> Lines<R>
        ensures whole { result.reader ≡ reader }
        ensures many { result.left ≡ 2 ^ 64 - 1 }
    {
        Lines {
            reader,
            left: u64::MAX,
        }
    }
}

impl<R: BufRead> Lines<R> {
    // Reads the next line, and says how it was kept, or None at the end of the input. The line is the caller's, and this no
    // Iterator, whose items would each own a line: one buffer serves all lines, and grows once, to the longest.
    pub fn read_line(&mut self, line: &mut Vec<u8>) -> io::Result<Option<Result<(), Complaint>>>
        ensures { IfOk result (λ kept. IsSome kept → self.new.left < self.old.left) }
    {
        let Some(left) = self.left.checked_sub(1) else {
            return Ok(None);
        };
        self.left = left;
        next_line(&mut self.reader, line)
    }
}
