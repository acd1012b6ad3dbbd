// The shuffle codec: the first byte of each element, then the second of each, and so on.
ghost use Rattle.std.specs.Prelude.{◌≡◌, ◌↔◌, ◌*◌, ◌%◌, ◌≤◌, length, take, Ok, IsOk};
ghost use Rattle.form.specs.Answers.{Answers};
ghost use Rattle.form.specs.Refusals.{unless, only_if};
ghost use Rattle.stage.specs.Calls.{roomy, InPlace};
ghost use Rattle.shuffle.specs.Shuffle.{Sized, size_refusal, turned, uneven, shuffling, Goes, Back};
ghost use Rattle.shuffle.specs.Laws.{shuffling_laws};

use form::fault::Fault;
use stage::capability::PartialDecoderCapability;
use stage::room::{enough, room};
use stage::single::SingleCodec;

#[derive(Clone, Copy)]
pub struct ShuffleCodec {
    elementsize: usize,
    ghost sized: { Sized elementsize },
}

impl ShuffleCodec {
    // A shuffle of elements of 1 to 4,096 bytes.
    pub fn new(elementsize: usize) -> Result<ShuffleCodec, Fault>
        ensures answer { Answers (size_refusal elementsize) (λ s. s.elementsize ≡ elementsize) result }
        ensures sized { IsOk result ↔ Sized elementsize }
    {
        if !(1..=4096).contains(&elementsize) {
            return Err(Fault::ElementSize);
        }
        Ok(ShuffleCodec { elementsize })
    }

    pub fn elementsize(&self) -> usize
        ensures value { result ≡ self.now.elementsize }
        ensures sized { Sized result }
    {
        self.elementsize
    }

    // Turns the first bytes of buf, a table of rows times cols, where the form is taken and there is room.
    fn turn_front(
        &self,
        form: &usize,
        rows: usize,
        cols: usize,
        buf: &mut [u8],
        scratch: &mut [u8],
    ) -> Result<usize, Fault>
        requires { form.now % self.now.elementsize ≡ 0 → rows * cols ≡ form.now }
        ensures { InPlace (unless (uneven self.now.elementsize form.now) (only_if (roomy (length buf.old) (length scratch.old)) 14 (Ok form.now))) (turned rows cols (take form.now buf.old)) buf.new result }
    {
        let n = self.coded(form)?;
        room(buf, scratch)?;
        scratch[..n].copy_from_slice(&buf[..n]);
        turn(rows, cols, &scratch[..n], &mut buf[..n]);
        Ok(n)
    }
}

// Writes a table of rows times cols by its columns. Rows are cut by their number: chunks_exact takes no rows of 0 bytes, and
// decoding no bytes has such.
fn turn(rows: usize, cols: usize, table: &[u8], out: &mut [u8])
    requires whole { length table.now ≡ rows * cols }
    requires room { length out.old ≡ rows * cols }
    ensures { out.new ≡ turned rows cols table.now }
{
    for i in 0..rows {
        for (j, byte) in table[i * cols..][..cols].iter().enumerate() {
            out[j * rows + i] = *byte;
        }
    }
}

impl SingleCodec for ShuffleCodec {
    type Decoded = usize;

    type Encoded = usize;

    ghost coding = { λ s. shuffling s.elementsize };

    ghost lawful = { λ s. shuffling_laws s.elementsize };

    fn capability(&self) -> PartialDecoderCapability {
        PartialDecoderCapability::WHOLE_ONLY
    }

    fn coded(&self, form: &usize) -> Result<usize, Fault> {
        if !form.is_multiple_of(self.elementsize) {
            return Err(Fault::Multiple);
        }
        if *form > 4096 {
            return Err(Fault::TooLong);
        }
        Ok(*form)
    }

    fn encode(&self, form: &usize, buf: &mut [u8], scratch: &mut [u8]) -> Result<usize, Fault> {
        let elements = *form / self.elementsize;
        self.turn_front(form, elements, self.elementsize, buf, scratch)
    }

    fn decode(&self, form: &usize, buf: &mut [u8], scratch: &mut [u8]) -> Result<usize, Fault> {
        let elements = *form / self.elementsize;
        self.turn_front(form, self.elementsize, elements, buf, scratch)
    }

    fn test(&self, form: &usize, buf: &[u8]) -> Result<bool, Fault> {
        self.coded(form)?;
        enough(buf)?;
        Ok(true)
    }
}

// What is proved of the format: where each byte goes, and that decoding takes it back.
pub fn shuffle_stands()
    ensures goes { Goes }
    ensures back { Back }
{}
