// Elements as numbers, the least byte first.
ghost use Rattle.std.specs.Prelude.{◌≡◌, ◌≤◌, length};
ghost use Rattle.stage.specs.Elements.{little, digits};

// The number that an element's bytes write. The clause `bytes` follows from `value`, but not in a proof that does not know that
// each byte is below 256, as at the start of the loop in `turn`.
pub(crate) fn read(element: &[u8]) -> u64
    requires { length element.now ≤ 8 }
    ensures value { result ≡ little element.now }
    ensures bytes { digits (length element.now) result ≡ element.now }
{
    let mut bytes = [0; 8];
    bytes[..element.len()].copy_from_slice(element);
    u64::from_le_bytes(bytes)
}

// Writes the low bytes of a number, as many as the element has.
pub(crate) fn write(element: &mut [u8], v: u64)
    requires { length element.old ≤ 8 }
    ensures { element.new ≡ digits (length element.old) v }
{
    let bytes = v.to_le_bytes();
    element.copy_from_slice(&bytes[..element.len()]);
}
