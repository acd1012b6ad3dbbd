// Writes of an open chunk.
ghost use Rattle.std.specs.Prelude.{◌≡◌, ◌≤◌, length, take, true, Some, None, Ok, IfOk, OnErr};
ghost use Rattle.stage.specs.Arrays.{array_bytes};
ghost use Rattle.form.specs.Refusals.{told, unless};
ghost use Rattle.chunks.specs.Calls.{erases, writes, array_after, changed, due, event, finished, storing};
ghost use Rattle.chunks.specs.Histories.{Carried};
ghost use Rattle.chunks.specs.Views.{array_of, chained, encoding};
ghost use Rattle.chunks.specs.Seen.{seen};

use crate::cache::Event;
use crate::in_place;
use crate::open_chunk::OpenChunk;
use cells::cell::Cell;
use form::fault::Fault;
use stage::array_to_array::ArrayToArrayCodec;
use stage::array_to_bytes::ArrayToBytesCodec;
use stage::codec::Codec;
use stage::room::room;
use subset::array_subset::ArraySubset;

impl<
    A: ArrayToArrayCodec + Drop,
    B: ArrayToBytesCodec + Drop,
    S: Codec<Decoded = usize, Encoded = usize> + Drop,
    C: Cell + Drop,
> OpenChunk<A, B, S, C> {
    // As `write_subset`, without what it means for histories.
    fn overwrite(
        &mut self,
        subset: &ArraySubset<'_>,
        elements: &[u8],
        work: &mut [u8],
        scratch: &mut [u8],
    ) -> Result<(), Fault>
        ensures answer { told result ≡ unless (due (seen self.old) (seen self.old).cell (writes subset.now.start.now subset.now.shape.now elements.now) (record { output = 0; work = length work.old; scratch = length scratch.old })) (Ok tt) }
        ensures chain { self.new.chain ≡ self.old.chain }
        ensures buffer { IfOk result (λ _. C.Cell.rewritten self.old.cell ((chained (seen self.old).coder).size self.old.chain.form 0) self.new.cell) }
        ensures same { OnErr result (self.new ≡ self.old) }
        ensures changed { IfOk result (λ _. seen self.new ≡ changed (seen self.old) (writes subset.now.start.now subset.now.shape.now elements.now)) }
        ensures returns { IfOk result (λ _. array_of (seen self.new).coder (seen self.new).cell ≡ array_after (seen self.old).coder (writes subset.now.start.now subset.now.shape.now elements.now) true (array_of (seen self.old).coder (seen self.old).cell)) }
    {
        self.usable()?;
        let form = self.chain.form();
        let count = subset.bytes(form)?;
        if elements.len() != count {
            return Err(Fault::Length);
        }
        room(work, scratch)?;
        let size = self.load_array(work, scratch);
        subset.write(form, elements, &mut work[..size]).unwrap();
        self.store(work, scratch);
        Ok(())
    }

    // Overwrites a subset of the array, and stores it whole. What the work buffers hold afterwards is not said.
    pub fn write_subset(
        &mut self,
        subset: &ArraySubset<'_>,
        elements: &[u8],
        work: &mut [u8],
        scratch: &mut [u8],
    ) -> Result<(), Fault>
        ensures answer { told result ≡ unless (due (seen self.old) (seen self.old).cell (writes subset.now.start.now subset.now.shape.now elements.now) (record { output = 0; work = length work.old; scratch = length scratch.old })) (Ok tt) }
        ensures chain { self.new.chain ≡ self.old.chain }
        ensures buffer { IfOk result (λ _. C.Cell.rewritten self.old.cell ((chained (seen self.old).coder).size self.old.chain.form 0) self.new.cell) }
        ensures same { OnErr result (self.new ≡ self.old) }
        ensures carried { Carried (seen self.old) (event (writes subset.now.start.now subset.now.shape.now elements.now) 0 (length work.old) (length scratch.old) (finished result)) (seen self.new) }
    {
        self.overwrite(subset, elements, work, scratch)
    }

    // Stores the encoding of the array at the front of a work buffer in the cell, and keeps what it is at the cache place.
    fn store(&mut self, work: &mut [u8], scratch: &mut [u8])
        requires open { self.old.shut ≡ None }
        requires work { 4096 ≤ length work.old }
        requires scratch { 4096 ≤ length scratch.old }
        ensures chain { self.new.chain ≡ self.old.chain }
        ensures buffer { C.Cell.rewritten self.old.cell ((chained (seen self.old).coder).size self.old.chain.form 0) self.new.cell }
        ensures stored { seen self.new ≡ storing (seen self.old) (Some (encoding (seen self.old).coder (take (array_bytes self.old.chain.form) work.old))) }
        ensures returns { array_of (seen self.old).coder (C.Cell.value self.new.cell) ≡ take (array_bytes self.old.chain.form) work.old }
    {
        in_place::bytes_known(work);
        let count = in_place::encode(&self.chain, work, scratch);
        self.cell.replace(&work[..count]).unwrap();
        if let Some(place) = self.place {
            let kept = in_place::undo(&self.chain, 0, place, work, scratch);
            self.cache.note(Event::Write(&work[..kept]));
        }
    }

    // As `erase`, without what it means for histories.
    fn make_absent(&mut self) -> Result<(), Fault>
        ensures answer { told result ≡ unless (due (seen self.old) (seen self.old).cell erases (record { output = 0; work = 0; scratch = 0 })) (Ok tt) }
        ensures chain { self.new.chain ≡ self.old.chain }
        ensures buffer { IfOk result (λ _. C.Cell.rewritten self.old.cell 0 self.new.cell) }
        ensures same { OnErr result (self.new ≡ self.old) }
        ensures changed { IfOk result (λ _. seen self.new ≡ changed (seen self.old) erases) }
        ensures returns { IfOk result (λ _. array_of (seen self.new).coder (seen self.new).cell ≡ array_after (seen self.old).coder erases true (array_of (seen self.old).coder (seen self.old).cell)) }
    {
        self.usable()?;
        self.cell.erase();
        self.cache.note(Event::Erase);
        Ok(())
    }

    // Makes the cell absent.
    pub fn erase(&mut self) -> Result<(), Fault>
        ensures answer { told result ≡ unless (due (seen self.old) (seen self.old).cell erases (record { output = 0; work = 0; scratch = 0 })) (Ok tt) }
        ensures chain { self.new.chain ≡ self.old.chain }
        ensures buffer { IfOk result (λ _. C.Cell.rewritten self.old.cell 0 self.new.cell) }
        ensures same { OnErr result (self.new ≡ self.old) }
        ensures carried { Carried (seen self.old) (event erases 0 0 0 (finished result)) (seen self.new) }
    {
        self.make_absent()
    }
}
