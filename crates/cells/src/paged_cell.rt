// A cell in listed pages of one buffer.
ghost use Rattle.std.specs.Prelude.{◌≡◌, ◌+◌, ◌*◌, ◌<◌, ◌≤◌, true, not, cond, [], length, slice_index_or, None};
ghost use Rattle.form.specs.Refusals.{told};
ghost use Rattle.cells.specs.Cells.{marked, marked_count, RestKept, check_answer};
ghost use Rattle.cells.specs.Pages.{gathered, place, pages_capacity, inside, distinct, pages_fit, PlacesStand};

use crate::buffer::Buffer;
use crate::cell::{Cell, Mark, read_count};
use arrayvec::ArrayVec;
use form::fault::Fault;

// How many bytes a page has.
const PAGE_SIZE: usize = 256;

// How many pages a cell has at most.
const MAX_PAGES: usize = 16;

#[derive(Drop)]
pub struct PagedCell<B: Buffer> {
    buffer: B,
    pages: ArrayVec<usize, MAX_PAGES>,
    // how many of the first bytes in the pages are the value, if it is not absent
    mark: Mark,
    ghost few: { length pages.items ≤ 16 },
    ghost inside: { inside (length (B.Buffer.bytes buffer)) pages.items ≡ true },
    ghost distinct: { distinct pages.items ≡ true },
    ghost marked: { marked_count mark ≤ pages_capacity pages.items },
}

// Whether each page lies wholly in a buffer of so many bytes.
fn all_inside(size: usize, pages: &[usize]) -> bool
    ensures { result ≡ inside size pages.now }
{
    pages.iter().all(|page| *page < size / PAGE_SIZE)
}

// Whether one of the pages is listed twice.
fn any_twice(pages: &[usize]) -> bool
    ensures { result ≡ not (distinct pages.now) }
{
    let mut left = pages;
    while let [page, later @ ..] = left {
        if later.contains(page) {
            return true;
        }
        left = later;
    }
    false
}

// Whether a cell in these pages of a buffer of so many bytes can have the marked value.
pub fn check_pages(size: usize, pages: &[usize], mark: Mark) -> Result<(), Fault>
    ensures { told result ≡ check_answer (pages_fit size pages.now mark) }
{
    let fits = pages.len() <= MAX_PAGES
        && all_inside(size, pages)
        && !any_twice(pages)
        && mark.unwrap_or(0) <= PAGE_SIZE * pages.len();
    if fits { Ok(()) } else { Err(Fault::CellLayout) }
}

// Where the page begins that is listed at that index.
fn page_start(buffer: &[u8], pages: &[usize], index: usize) -> usize
    requires inside { inside (length buffer.now) pages.now ≡ true }
    requires listed { index < length pages.now }
    ensures start { result ≡ 256 * slice_index_or pages.now index 0 }
    ensures inside { result + 256 ≤ length buffer.now }
{
    PAGE_SIZE * pages[index]
}

impl<B: Buffer + Drop> PagedCell<B> {
    // A cell in the pages with the marked value. Where the check refuses it is absent, and has no page.
    pub fn new(buffer: B, pages: &[usize], mark: Mark) -> PagedCell<B>
        ensures buffer { result.buffer ≡ buffer }
        ensures pages { result.pages.items ≡ cond (pages_fit (length (B.Buffer.bytes buffer)) pages.now mark) pages.now [] }
        ensures capacity { ⟦<PagedCell<B> as Cell>⟧.capacity result ≡ cond (pages_fit (length (B.Buffer.bytes buffer)) pages.now mark) (pages_capacity pages.now) 0 }
        ensures value { ⟦<PagedCell<B> as Cell>⟧.value result ≡ cond (pages_fit (length (B.Buffer.bytes buffer)) pages.now mark) (marked mark (gathered (B.Buffer.bytes buffer) pages.now)) None }
    {
        let listed = ArrayVec::<usize, MAX_PAGES>::try_from(pages);
        match (check_pages(buffer.as_slice().len(), pages, mark), listed) {
            (Ok(()), Ok(pages)) => PagedCell {
                buffer,
                pages,
                mark,
            },
            _ => PagedCell {
                buffer,
                pages: ArrayVec::new(),
                mark: None,
            },
        }
    }

    // The buffer behind the cell.
    pub fn buffer(&self) -> &B
        ensures { result.now ≡ self.now.buffer }
    {
        &self.buffer
    }
}

impl<B: Buffer + Drop> Cell for PagedCell<B> {
    ghost value = { λ s. marked s.mark (gathered (B.Buffer.bytes s.buffer) s.pages.items) };

    ghost capacity = { λ s. pages_capacity s.pages.items };

    ghost behind = { λ s. B.Buffer.bytes s.buffer };

    ghost rewritten = { λ s n t. (B.Buffer.lender t.buffer ≡ B.Buffer.lender s.buffer) × (t.pages ≡ s.pages) × RestKept (place s.pages.items) n (B.Buffer.bytes s.buffer) (B.Buffer.bytes t.buffer) };

    ghost confined = { λ s n t h. (place s.pages.items, h.2) };

    fn length(&self) -> Option<usize> {
        self.mark
    }

    fn read(&self, offset: usize, count: usize, output: &mut [u8]) -> Result<usize, Fault> {
        let count = read_count(self.length(), offset, count, output.len())?;
        let buffer = self.buffer.as_slice();
        let pages = self.pages.as_slice();
        let end = offset + count;
        for index in offset / PAGE_SIZE..end.div_ceil(PAGE_SIZE) {
            let start = PAGE_SIZE * index;
            let from = offset.max(start);
            let to = end.min(start + PAGE_SIZE);
            let at = page_start(buffer, pages, index) + (from - start);
            output[from - offset..to - offset].copy_from_slice(&buffer[at..at + (to - from)]);
        }
        Ok(count)
    }

    fn capacity(&self) -> usize {
        PAGE_SIZE * self.pages.len()
    }

    fn replace(&mut self, bytes: &[u8]) -> Result<(), Fault> {
        let count = bytes.len();
        if count > self.capacity() {
            return Err(Fault::Capacity);
        }
        for index in 0..count.div_ceil(PAGE_SIZE) {
            let start = PAGE_SIZE * index;
            let end = count.min(start + PAGE_SIZE);
            let at = page_start(self.buffer.as_slice(), self.pages.as_slice(), index);
            self.buffer.put(at, &bytes[start..end]);
        }
        self.mark = Some(count);
        Ok(())
    }

    fn erase(&mut self) {
        self.mark = None;
    }
}

// Each byte of the listed pages, one after the other, is the byte of the buffer at its place.
pub fn page_places_stand()
    ensures { PlacesStand }
{}
