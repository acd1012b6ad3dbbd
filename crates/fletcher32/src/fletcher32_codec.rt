// The fletcher32 codec: the bytes, and after them their checksum.
ghost use Rattle.std.specs.Prelude.{◌≡◌, ◌+◌, ◌-◌, ◌^◌, ◌<◌, ◌≤◌, ◌↔◌, length, take, IsOk, IfOk, IfErr};
ghost use Rattle.form.specs.Refusals.{refusal, plain};
ghost use Rattle.fletcher32.specs.Fletcher32.{folded, fletcher32, checksumming};
ghost use Rattle.fletcher32.specs.Laws.{checksumming_laws};

use form::fault::Fault;
use stage::capability::PartialDecoderCapability;
use stage::room::{enough, room};
use stage::single::SingleCodec;

// How many bytes a stored checksum has.
pub const CHECKSUM_SIZE: usize = 4;

// The sum of the words so far, and the sum of the sums: what counts of each is its fold.
#[derive(Clone, Copy)]
struct Sums {
    s: u64,
    t: u64,
    ghost small_s: { s < 2 ^ 62 },
    ghost small_t: { t < 2 ^ 62 },
}

fn fold(v: u64) -> u32
    ensures value { result ≡ folded v }
    ensures small { result < 65536 }
{
    if v == 0 {
        0
    } else {
        1 + ((v - 1) % 65535) as u32
    }
}

impl Sums {
    // One more word; large sums are folded, so that none overflows.
    fn add(self, word: u16) -> Sums
        ensures sum { folded result.s ≡ folded (self.s + word) }
        ensures sums { folded result.t ≡ folded (self.t + (self.s + word)) }
    {
        let s = self.s + u64::from(word);
        let t = self.t + s;
        if t < 1 << 62 {
            Sums { s, t }
        } else {
            Sums {
                s: u64::from(fold(s)),
                t: u64::from(fold(t)),
            }
        }
    }
}

// The checksum of bytes, of any number of them. A slice pattern takes the bytes, two for a word or a last one, as the definition
// does.
pub fn h5_checksum_fletcher32(bytes: &[u8]) -> u32
    ensures { result ≡ fletcher32 bytes.now }
{
    let mut sums = Sums { s: 0, t: 0 };
    let mut left = bytes;
    while let [a, b, rest @ ..] = left {
        sums = sums.add(u16::from_be_bytes([*a, *b]));
        left = rest;
    }
    if let [a] = left {
        sums = sums.add(u16::from_be_bytes([*a, 0]));
    }
    65536 * fold(sums.t) + fold(sums.s)
}

// The bytes before the checksum, where bytes ends in one.
pub fn data_before_checksum(bytes: &[u8]) -> Result<&[u8], Fault>
    ensures long { IsOk result ↔ (CHECKSUM_SIZE ≤ length bytes.now) }
    ensures data { IfOk result (λ s. s.now ≡ take (length bytes.now - CHECKSUM_SIZE) bytes.now) }
    ensures refusal { IfErr result (λ e. refusal e ≡ plain 13) }
{
    let (data, _) = bytes
        .split_last_chunk::<CHECKSUM_SIZE>()
        .ok_or(Fault::Length)?;
    Ok(data)
}

// Whether bytes ends in the checksum of what is before it.
fn checksum_agrees(bytes: &[u8]) -> bool
    requires { CHECKSUM_SIZE ≤ length bytes.now }
    ensures { result ≡ checksumming.test (length bytes.now - CHECKSUM_SIZE) bytes.now }
{
    bytes.split_last_chunk().is_some_and(|(data, stored)| {
        u32::from_le_bytes(*stored) == h5_checksum_fletcher32(data)
    })
}

// Stores the checksum of the bytes before the last four in these.
fn append_checksum(bytes: &mut [u8])
    requires { CHECKSUM_SIZE ≤ length bytes.old }
    ensures { bytes.new ≡ checksumming.encoded (length bytes.old - CHECKSUM_SIZE) (take (length bytes.old - CHECKSUM_SIZE) bytes.old) }
{
    if let Some((data, stored)) = bytes.split_last_chunk_mut() {
        *stored = h5_checksum_fletcher32(data).to_le_bytes();
    }
}

#[derive(Clone, Copy)]
pub struct Fletcher32Codec;

impl Fletcher32Codec {
    pub fn new() -> Fletcher32Codec {
        Fletcher32Codec
    }
}

impl SingleCodec for Fletcher32Codec {
    type Decoded = usize;

    type Encoded = usize;

    ghost coding = { λ _. checksumming };

    ghost lawful = { λ s. checksumming_laws };

    fn capability(&self) -> PartialDecoderCapability {
        PartialDecoderCapability::WHOLE_ONLY
    }

    fn coded(&self, form: &usize) -> Result<usize, Fault> {
        if *form > 4096 - CHECKSUM_SIZE {
            return Err(Fault::TooLong);
        }
        Ok(*form + CHECKSUM_SIZE)
    }

    fn encode(&self, form: &usize, buf: &mut [u8], scratch: &mut [u8]) -> Result<usize, Fault> {
        let encoded = self.coded(form)?;
        room(buf, scratch)?;
        append_checksum(&mut buf[..encoded]);
        Ok(encoded)
    }

    fn decode(&self, form: &usize, buf: &mut [u8], scratch: &mut [u8]) -> Result<usize, Fault> {
        self.coded(form)?;
        room(buf, scratch)?;
        Ok(*form)
    }

    fn test(&self, form: &usize, buf: &[u8]) -> Result<bool, Fault> {
        let encoded = self.coded(form)?;
        enough(buf)?;
        Ok(checksum_agrees(&buf[..encoded]))
    }
}
