// Reads of an open chunk.
ghost use Rattle.std.specs.Prelude.{◌≡◌, ◌≤◌, ◌*◌, length, take, None, Ok, IfOk, IfSome, option_map};
ghost use Rattle.std.specs.Option.{unwrap_or};
ghost use Rattle.form.specs.Refusals.{told, unless};
ghost use Rattle.form.specs.Shapes.{product};
ghost use Rattle.form.specs.Forms.{shape_of, element_size};
ghost use Rattle.stage.specs.Arrays.{array_bytes};
ghost use Rattle.stage.specs.Calls.{written};
ghost use Rattle.cells.specs.Cells.{bytes_of, marked};
ghost use Rattle.subset.specs.Subsets.{subset_of};
ghost use Rattle.chunks.specs.Views.{all_fill, array_of, chained, kept, plain, plain_length};
ghost use Rattle.chunks.specs.Ranges.{range_length, range_of};
ghost use Rattle.chunks.specs.Calls.{asks_cached, reads_range, reads_subset, cached_count, cached_written, due, event, given, told_cached};
ghost use Rattle.chunks.specs.Histories.{Carried};
ghost use Rattle.chunks.specs.Seen.{seen};

use crate::byte_range::ByteRange;
use crate::cache::Cache;
use crate::cached::Cached;
use crate::in_place;
use crate::open_chunk::OpenChunk;
use cells::cell::Cell;
use form::array_form::Form;
use form::fault::Fault;
use stage::array_to_array::ArrayToArrayCodec;
use stage::array_to_bytes::ArrayToBytesCodec;
use stage::codec::Codec;
use stage::room::room;
use subset::array_subset::ArraySubset;

// Makes the front of a buffer an array that has the fill value everywhere, and answers how many bytes these are.
fn fill(form: &Form, work: &mut [u8]) -> usize
    requires { 4096 ≤ length work.old }
    ensures count { result ≡ array_bytes form.now }
    ensures exact { result ≡ product (shape_of form.now) * element_size form.now }
    ensures bytes { take result work.new ≡ all_fill form.now }
{
    let element = form.fill_value();
    for i in 0..form.elements() {
        let at = i * element.len();
        work[at..at + element.len()].copy_from_slice(element);
    }
    form.bytes()
}

impl<
    A: ArrayToArrayCodec + Drop,
    B: ArrayToBytesCodec + Drop,
    S: Codec<Decoded = usize, Encoded = usize> + Drop,
    C: Cell + Drop,
> OpenChunk<A, B, S, C> {
    // The refusal with which the chunk is shut.
    pub(crate) fn usable(&self) -> Result<(), Fault>
        ensures answer { told result ≡ unless (seen self.now).shut (Ok tt) }
        ensures open { IfOk result (λ _. self.now.shut ≡ None) }
    {
        match self.shut {
            None => Ok(()),
            Some(e) => Err(e),
        }
    }

    // Undoes the cell's bytes up to a place, to the front of a work buffer, and answers how many there are then: from what is kept
    // where that lies on the way, and else from the cell.
    fn undo_to(&self, place: usize, work: &mut [u8], scratch: &mut [u8]) -> Option<usize>
        requires open { self.now.shut ≡ None }
        requires there { place ≤ length (chained (seen self.now).coder).singles }
        requires work { 4096 ≤ length work.old }
        requires scratch { 4096 ≤ length scratch.old }
        ensures count { IfSome result (λ n. n ≡ (chained (seen self.now).coder).size self.now.chain.form place) }
        ensures bytes { option_map ((chained (seen self.now).coder).undone self.now.chain.form 0 place) (seen self.now).cell ≡ marked result work.new }
    {
        if let (Some(at), Cache::Bytes(kept)) = (self.place, &self.cache) {
            if at <= place {
                let count = kept.len();
                work[..count].copy_from_slice(kept.as_slice());
                return Some(in_place::undo(&self.chain, at, place, work, scratch));
            }
        }
        in_place::load(&self.cell, work)?;
        Some(in_place::undo(&self.chain, 0, place, work, scratch))
    }

    // Puts the array of the cell to the front of a work buffer, and answers how many bytes it has.
    pub(crate) fn load_array(&self, work: &mut [u8], scratch: &mut [u8]) -> usize
        requires open { self.now.shut ≡ None }
        requires work { 4096 ≤ length work.old }
        requires scratch { 4096 ≤ length scratch.old }
        ensures count { result ≡ array_bytes self.now.chain.form }
        ensures exact { result ≡ product (shape_of self.now.chain.form) * element_size self.now.chain.form }
        ensures bytes { take result work.new ≡ array_of (seen self.now).coder (seen self.now).cell }
    {
        let form = self.chain.form();
        let place = self.chain.chain().singles();
        let Some(_) = self.undo_to(place, work, scratch) else {
            return fill(form, work);
        };
        form.bytes()
    }

    // As `read_subset`, without what it means for histories.
    fn copy_subset(
        &self,
        subset: &ArraySubset<'_>,
        output: &mut [u8],
        work: &mut [u8],
        scratch: &mut [u8],
    ) -> Result<usize, Fault>
        ensures answer { told result ≡ unless (due (seen self.now) (seen self.now).cell (reads_subset subset.now.start.now subset.now.shape.now) (record { output = length output.old; work = length work.old; scratch = length scratch.old })) (Ok (product subset.now.shape.now * element_size self.now.chain.form)) }
        ensures bytes { output.new ≡ written result (subset_of (shape_of self.now.chain.form) subset.now.start.now subset.now.shape.now (element_size self.now.chain.form) (array_of (seen self.now).coder (seen self.now).cell)) output.old }
        ensures counted { IfOk result (λ n. length (subset_of (shape_of self.now.chain.form) subset.now.start.now subset.now.shape.now (element_size self.now.chain.form) (array_of (seen self.now).coder (seen self.now).cell)) ≡ n) }
    {
        self.usable()?;
        let form = self.chain.form();
        let count = subset.bytes(form)?;
        if count > output.len() {
            return Err(Fault::BufferShort);
        }
        room(work, scratch)?;
        let size = self.load_array(work, scratch);
        subset.read(form, &work[..size], output)
    }

    // As `read_range`, without what it means for histories.
    fn copy_range(
        &self,
        range: ByteRange,
        output: &mut [u8],
        work: &mut [u8],
        scratch: &mut [u8],
    ) -> Result<usize, Fault>
        ensures answer { told result ≡ unless (due (seen self.now) (seen self.now).cell (reads_range range) (record { output = length output.old; work = length work.old; scratch = length scratch.old })) (Ok (range_length (plain_length (seen self.now).coder) range)) }
        ensures bytes { output.new ≡ written result (range_of range (plain (seen self.now).coder (bytes_of (seen self.now).cell))) output.old }
        ensures counted { IfOk result (λ n. length (range_of range (plain (seen self.now).coder (bytes_of (seen self.now).cell))) ≡ n) }
    {
        self.usable()?;
        let Some(_) = self.cell.length() else {
            return Err(Fault::Absent);
        };
        let place = self.chain.chain().bytes_place();
        let size = in_place::size(&self.chain, place);
        let (start, count) = range.within(size)?;
        if count > output.len() {
            return Err(Fault::BufferShort);
        }
        room(work, scratch)?;
        self.undo_to(place, work, scratch);
        output[..count].copy_from_slice(&work[start..start + count]);
        Ok(count)
    }

    // As `cached`, without what it means for histories.
    fn copy_cached(&self, output: &mut [u8]) -> Result<Cached, Fault>
        ensures answer { told result ≡ unless (due (seen self.now) (seen self.now).cell asks_cached (record { output = length output.old; work = 0; scratch = 0 })) (Ok (cached_count (seen self.now).cached)) }
        ensures bytes { output.new ≡ cached_written result (bytes_of (unwrap_or (seen self.now).cached None)) output.old }
        ensures sound { IfOk result (λ _. (seen self.now).cached ≡ kept (seen self.now).coder (seen self.now).cell) }
    {
        self.usable()?;
        match &self.cache {
            Cache::NoPlace => Ok(Cached::NoPlace),
            Cache::Absent => Ok(Cached::Absent),
            Cache::Bytes(kept) => {
                let count = kept.len();
                if count > output.len() {
                    return Err(Fault::BufferShort);
                }
                output[..count].copy_from_slice(kept.as_slice());
                Ok(Cached::Bytes(count))
            }
        }
    }

    // Copies a subset of the array to the front of the output, and answers how many bytes that are. What the work buffers hold
    // afterwards is not said.
    pub fn read_subset(
        &self,
        subset: &ArraySubset<'_>,
        output: &mut [u8],
        work: &mut [u8],
        scratch: &mut [u8],
    ) -> Result<usize, Fault>
        ensures answer { told result ≡ unless (due (seen self.now) (seen self.now).cell (reads_subset subset.now.start.now subset.now.shape.now) (record { output = length output.old; work = length work.old; scratch = length scratch.old })) (Ok (product subset.now.shape.now * element_size self.now.chain.form)) }
        ensures bytes { output.new ≡ written result (subset_of (shape_of self.now.chain.form) subset.now.start.now subset.now.shape.now (element_size self.now.chain.form) (array_of (seen self.now).coder (seen self.now).cell)) output.old }
        ensures carried { Carried (seen self.now) (event (reads_subset subset.now.start.now subset.now.shape.now) (length output.old) (length work.old) (length scratch.old) (given result output.new)) (seen self.now) }
    {
        self.copy_subset(subset, output, work, scratch)
    }

    // Copies a range of the cell's bytes, with all codecs from bytes to bytes undone, to the front of the output, and answers how many
    // these are. What the work buffers hold afterwards is not said.
    pub fn read_range(
        &self,
        range: ByteRange,
        output: &mut [u8],
        work: &mut [u8],
        scratch: &mut [u8],
    ) -> Result<usize, Fault>
        ensures answer { told result ≡ unless (due (seen self.now) (seen self.now).cell (reads_range range) (record { output = length output.old; work = length work.old; scratch = length scratch.old })) (Ok (range_length (plain_length (seen self.now).coder) range)) }
        ensures bytes { output.new ≡ written result (range_of range (plain (seen self.now).coder (bytes_of (seen self.now).cell))) output.old }
        ensures carried { Carried (seen self.now) (event (reads_range range) (length output.old) (length work.old) (length scratch.old) (given result output.new)) (seen self.now) }
    {
        self.copy_range(range, output, work, scratch)
    }

    // Says what is kept, and copies its bytes to the front of the output.
    pub fn cached(&self, output: &mut [u8]) -> Result<Cached, Fault>
        ensures answer { told result ≡ unless (due (seen self.now) (seen self.now).cell asks_cached (record { output = length output.old; work = 0; scratch = 0 })) (Ok (cached_count (seen self.now).cached)) }
        ensures bytes { output.new ≡ cached_written result (bytes_of (unwrap_or (seen self.now).cached None)) output.old }
        ensures carried { Carried (seen self.now) (event asks_cached (length output.old) 0 0 (told_cached result output.new)) (seen self.now) }
    {
        self.copy_cached(output)
    }
}
