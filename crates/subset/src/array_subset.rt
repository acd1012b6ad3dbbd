// Subsets of arrays.
ghost use Rattle.std.specs.Prelude.{◌≡◌, length};
ghost use Rattle.form.specs.Refusals.{told};
ghost use Rattle.form.specs.Forms.{shape_of, element_size};
ghost use Rattle.stage.specs.Calls.{written};
ghost use Rattle.subset.specs.Answers.{bytes_answer, read_answer, write_answer, overwritten};
ghost use Rattle.subset.specs.Subsets.{inside, subset_of, put_subset};
ghost use Rattle.subset.specs.Laws.{Tested, Lawful, Figures};

use form::array_form::Form;
use form::fault::Fault;

// A box of an array: where it starts, and how long it is along each axis.
#[derive(Clone, Copy)]
pub struct ArraySubset<'a> {
    pub start: &'a [usize],
    pub shape: &'a [usize],
}

// Whether there are a start and a length for each axis, and on none the subset passes the array's end.
fn inside(array: &[usize], start: &[usize], shape: &[usize]) -> bool
    ensures { result ≡ inside array.now start.now shape.now }
{
    let [n, array @ ..] = array else {
        return start.is_empty() && shape.is_empty();
    };
    let ([s, start @ ..], [l, shape @ ..]) = (start, shape) else {
        return false;
    };
    *s <= *n && *l <= *n - *s && inside(array, start, shape)
}

impl ArraySubset<'_> {
    // How many bytes the subset has.
    pub fn bytes(&self, form: &Form) -> Result<usize, Fault>
        ensures { told result ≡ bytes_answer (shape_of form.now) self.now.start.now self.now.shape.now (element_size form.now) }
    {
        if !inside(form.shape(), self.start, self.shape) {
            return Err(Fault::Subset);
        }
        Ok(self.shape.iter().product::<usize>() * form.data_type().size())
    }

    // Copies the subset's bytes to the front of the output.
    pub fn read(&self, form: &Form, array: &[u8], output: &mut [u8]) -> Result<usize, Fault>
        ensures answer { told result ≡ read_answer (shape_of form.now) self.now.start.now self.now.shape.now (element_size form.now) (length array.now) (length output.old) }
        ensures bytes { output.new ≡ written result (subset_of (shape_of form.now) self.now.start.now self.now.shape.now (element_size form.now) array.now) output.old }
    {
        let count = self.bytes(form)?;
        if array.len() != form.bytes() {
            return Err(Fault::Length);
        }
        if output.len() < count {
            return Err(Fault::BufferShort);
        }
        let size = form.data_type().size();
        self.read_rows(form.shape(), size, array, &mut output[..count]);
        Ok(count)
    }

    // Overwrites the subset's bytes; everything else of the array stays as it was.
    pub fn write(&self, form: &Form, elements: &[u8], array: &mut [u8]) -> Result<(), Fault>
        ensures answer { told result ≡ write_answer (shape_of form.now) self.now.start.now self.now.shape.now (element_size form.now) (length elements.now) (length array.old) }
        ensures bytes { array.new ≡ overwritten result (put_subset (shape_of form.now) self.now.start.now self.now.shape.now (element_size form.now) elements.now array.old) array.old }
    {
        let count = self.bytes(form)?;
        if elements.len() != count || array.len() != form.bytes() {
            return Err(Fault::Length);
        }
        let size = form.data_type().size();
        self.write_rows(form.shape(), size, elements, array);
        Ok(())
    }
}

// What is proved of subsets: what the test of one says, the laws by its elements, and worked figures.
pub fn subsets_hold()
    ensures tested { Tested }
    ensures laws { Lawful }
    ensures figures { Figures }
{}
