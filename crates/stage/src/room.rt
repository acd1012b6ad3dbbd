// Room in the two work buffers.
ghost use Rattle.std.specs.Prelude.{◌≡◌, length, Ok, nat_le};
ghost use Rattle.form.specs.Refusals.{told, only_if};
ghost use Rattle.stage.specs.Calls.{roomy};

use form::fault::Fault;

// 14 unless the buffer has 4,096 bytes.
pub fn enough(buf: &[u8]) -> Result<(), Fault>
    ensures { told result ≡ only_if (nat_le 4096 (length buf.now)) 14 (Ok tt) }
{
    if buf.len() < 4096 {
        return Err(Fault::BufferShort);
    }
    Ok(())
}

// 14 unless each of the two work buffers has 4,096 bytes.
pub fn room(work: &[u8], scratch: &[u8]) -> Result<(), Fault>
    ensures { told result ≡ only_if (roomy (length work.now) (length scratch.now)) 14 (Ok tt) }
{
    enough(work)?;
    enough(scratch)
}
