// Subsets copied a row at a time: a row is one unbroken part of an array's bytes.
ghost use Rattle.std.specs.Prelude.{◌≡◌, ◌+◌, ◌*◌, ◌<◌, ◌≤◌, true, ◌++◌, length, take, drop};
ghost use Rattle.form.specs.Shapes.{product};
ghost use Rattle.subset.specs.Subsets.{inside, slab, subset_of, put_subset};

use crate::array_subset::ArraySubset;

fn copy(source: &[u8], target: &mut [u8])
    requires { length target.old ≡ length source.now }
    ensures { target.new ≡ source.now }
{
    target.copy_from_slice(source);
}

// Slab k, in slabs of so many bytes.
fn slab(bytes: &[u8], k: usize, width: usize) -> &[u8]
    requires { k * width + width ≤ length bytes.now }
    ensures { result.now ≡ slab width k bytes.now }
{
    let at = k * width;
    &bytes[at..at + width]
}

// Copies a row: so many elements from one on.
fn read_row(array: &[u8], from: usize, count: usize, size: usize, output: &mut [u8])
    requires within { from * size + count * size ≤ length array.now }
    requires room { length output.old ≡ count * size }
    ensures { output.new ≡ take (count * size) (drop (from * size) array.now) }
{
    let at = from * size;
    copy(&array[at..at + count * size], output);
}

// Overwrites a row: as many elements from one on.
fn write_row(elements: &[u8], from: usize, count: usize, size: usize, array: &mut [u8])
    requires within { from * size + count * size ≤ length array.old }
    requires room { length elements.now ≡ count * size }
    ensures { array.new ≡ take (from * size) array.old ++ (elements.now ++ drop (from * size + count * size) array.old) }
{
    let at = from * size;
    copy(elements, &mut array[at..at + count * size]);
}

impl ArraySubset<'_> {
    // Copies the subset out of an array, row by row. `size` is an element's bytes.
    #[tactic(auto, using(crate::proofs::Reading::reading))]
    pub(crate) fn read_rows(
        &self,
        array_shape: &[usize],
        size: usize,
        array: &[u8],
        output: &mut [u8],
    )
        requires some { 0 < length array_shape.now }
        requires inside { inside array_shape.now self.now.start.now self.now.shape.now ≡ true }
        requires whole { length array.now ≡ product array_shape.now * size }
        requires room { length output.old ≡ product self.now.shape.now * size }
        ensures { output.new ≡ subset_of array_shape.now self.now.start.now self.now.shape.now size array.now }
    {
        let (s, l) = (self.start[0], self.shape[0]);
        if array_shape.len() == 1 {
            read_row(array, s, l, size, output);
            return;
        }
        // nothing to copy, and no length to divide by
        if l == 0 {
            return;
        }
        let inner = ArraySubset {
            start: &self.start[1..],
            shape: &self.shape[1..],
        };
        let width = array.len() / array_shape[0];
        let part = output.len() / l;
        for k in 0..l {
            let to = k * part;
            inner.read_rows(
                &array_shape[1..],
                size,
                slab(array, s + k, width),
                &mut output[to..to + part],
            );
        }
    }

    // Overwrites the subset in an array, row by row. `size` is an element's bytes.
    #[tactic(auto, using(crate::proofs::Writing::writing))]
    pub(crate) fn write_rows(
        &self,
        array_shape: &[usize],
        size: usize,
        elements: &[u8],
        array: &mut [u8],
    )
        requires some { 0 < length array_shape.now }
        requires inside { inside array_shape.now self.now.start.now self.now.shape.now ≡ true }
        requires whole { length array.old ≡ product array_shape.now * size }
        requires room { length elements.now ≡ product self.now.shape.now * size }
        ensures { array.new ≡ put_subset array_shape.now self.now.start.now self.now.shape.now size elements.now array.old }
    {
        let (s, l) = (self.start[0], self.shape[0]);
        if array_shape.len() == 1 {
            write_row(elements, s, l, size, array);
            return;
        }
        // nothing to copy, and no length to divide by
        if l == 0 {
            return;
        }
        let inner = ArraySubset {
            start: &self.start[1..],
            shape: &self.shape[1..],
        };
        let width = array.len() / array_shape[0];
        let part = elements.len() / l;
        for k in 0..l {
            let at = (s + k) * width;
            inner.write_rows(
                &array_shape[1..],
                size,
                slab(elements, k, part),
                &mut array[at..at + width],
            );
        }
    }
}
