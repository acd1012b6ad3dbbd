// A chain's coding where the bytes stand, at the front of a work buffer, with checks off.
ghost use Rattle.std.specs.Prelude.{◌≡◌, ◌≤◌, length, take, option_map};
ghost use Rattle.cells.specs.Cells.{bytes_of, marked};
ghost use Rattle.stage.specs.Stage.{Bytes};
ghost use Rattle.stage.specs.Arrays.{array_bytes};
ghost use Rattle.codec_chain.specs.Chain.{chain_stage};

use cells::cell::Cell;
use codec_chain::fitted_chain::FittedChain;
use stage::array_to_array::ArrayToArrayCodec;
use stage::array_to_bytes::ArrayToBytesCodec;
use stage::codec::Codec;

// Each element of a slice of bytes is below 256. Called for its contract: it does nothing.
pub(crate) fn bytes_known(_bytes: &[u8])
    ensures { Bytes _bytes.now }
{}

// Copies the cell's value, and answers how many bytes it has if it is not absent.
pub(crate) fn load<C: Cell>(cell: &C, work: &mut [u8]) -> Option<usize>
    requires { length (bytes_of (C.Cell.value cell.now)) ≤ length work.old }
    ensures count { result ≡ option_map length (C.Cell.value cell.now) }
    ensures bytes { C.Cell.value cell.now ≡ marked result work.new }
{
    let count = cell.length()?;
    cell.read(0, count, work).unwrap();
    Some(count)
}

// How many bytes there are at a place.
pub(crate) fn size<
    A: ArrayToArrayCodec + Drop,
    B: ArrayToBytesCodec + Drop,
    S: Codec<Decoded = usize, Encoded = usize> + Drop,
>(chain: &FittedChain<A, B, S>, place: usize) -> usize
    requires { place ≤ length (chain_stage A.Codec.meaning B.Codec.meaning S.Codec.meaning chain.now.chain.stages).singles }
    ensures value { result ≡ (chain_stage A.Codec.meaning B.Codec.meaning S.Codec.meaning chain.now.chain.stages).size chain.now.form place }
    ensures fits { result ≤ 4096 }
{
    chain.chain().stages().size(chain.form(), place).unwrap()
}

// Encodes the array, and answers how many bytes the encoded has.
pub(crate) fn encode<
    A: ArrayToArrayCodec + Drop,
    B: ArrayToBytesCodec + Drop,
    S: Codec<Decoded = usize, Encoded = usize> + Drop,
>(chain: &FittedChain<A, B, S>, work: &mut [u8], scratch: &mut [u8]) -> usize
    requires work { 4096 ≤ length work.old }
    requires scratch { 4096 ≤ length scratch.old }
    ensures count { result ≡ (chain_stage A.Codec.meaning B.Codec.meaning S.Codec.meaning chain.now.chain.stages).size chain.now.form 0 }
    ensures bytes { take result work.new ≡ (chain_stage A.Codec.meaning B.Codec.meaning S.Codec.meaning chain.now.chain.stages).encoded chain.now.form (take (array_bytes chain.now.form) work.old) }
    ensures fits { result ≤ 4096 }
{
    chain
        .chain()
        .stages()
        .encode(chain.form(), work, scratch)
        .unwrap()
}

// Undoes the bytes at a place to a later one, and answers how many there are then.
pub(crate) fn undo<
    A: ArrayToArrayCodec + Drop,
    B: ArrayToBytesCodec + Drop,
    S: Codec<Decoded = usize, Encoded = usize> + Drop,
>(
    chain: &FittedChain<A, B, S>,
    from: usize,
    to: usize,
    work: &mut [u8],
    scratch: &mut [u8],
) -> usize
    requires forward { from ≤ to }
    requires there { to ≤ length (chain_stage A.Codec.meaning B.Codec.meaning S.Codec.meaning chain.now.chain.stages).singles }
    requires work { 4096 ≤ length work.old }
    requires scratch { 4096 ≤ length scratch.old }
    ensures count { result ≡ (chain_stage A.Codec.meaning B.Codec.meaning S.Codec.meaning chain.now.chain.stages).size chain.now.form to }
    ensures bytes { take result work.new ≡ (chain_stage A.Codec.meaning B.Codec.meaning S.Codec.meaning chain.now.chain.stages).undone chain.now.form from to (take ((chain_stage A.Codec.meaning B.Codec.meaning S.Codec.meaning chain.now.chain.stages).size chain.now.form from) work.old) }
    ensures fits { result ≤ 4096 }
{
    chain
        .chain()
        .stages()
        .undo(chain.form(), from, to, false, work, scratch)
        .unwrap()
}
