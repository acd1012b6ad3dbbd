// Answers worked out by hand from what subsets are to do.
use super::array_subset::ArraySubset;
use form::array_form::Form;
use form::fault::Fault;
use std::process::Abort;

const MAX: usize = usize::MAX;

const SUBSET: Result<usize, Fault> = Err(Fault::Subset);

fn form(rt: &impl Abort, shape: &[usize], code: usize, fill: &[u8]) -> Form {
    Form::new(shape, code, fill).expect(rt, "a form")
}

fn bytes(form: &Form, start: &[usize], shape: &[usize]) -> Result<usize, Fault> {
    ArraySubset { start, shape }.bytes(form)
}

#[test]
fn counted(rt: HostRuntime) {
    let line = form(&rt, &[5], 1, &[0]);
    assert_eq!(rt; bytes(&line, &[0], &[5]), Ok(5));
    assert_eq!(rt; bytes(&line, &[4], &[1]), Ok(1));
    assert_eq!(rt; bytes(&line, &[5], &[0]), Ok(0));
    let plane = form(&rt, &[2, 3], 3, &[0; 2]);
    assert_eq!(rt; bytes(&plane, &[1, 1], &[1, 2]), Ok(4));
    assert_eq!(rt; bytes(&plane, &[2, 0], &[0, 3]), Ok(0));
    let space = form(&rt, &[2, 3, 4], 9, &[0; 4]);
    assert_eq!(rt; bytes(&space, &[0, 1, 2], &[2, 2, 2]), Ok(32));
    let most = form(&rt, &[2, 2, 8, 16], 10, &[0; 8]);
    assert_eq!(rt; bytes(&most, &[0, 0, 0, 0], &[2, 2, 8, 16]), Ok(4096));
    assert_eq!(rt; bytes(&most, &[1, 1, 7, 15], &[1, 1, 1, 1]), Ok(8));
}

#[test]
fn outside(rt: HostRuntime) {
    let plane = form(&rt, &[2, 3], 3, &[0; 2]);
    assert_eq!(rt; bytes(&plane, &[0, 0], &[3, 3]), SUBSET);
    assert_eq!(rt; bytes(&plane, &[0, 1], &[2, 3]), SUBSET);
    assert_eq!(rt; bytes(&plane, &[3, 0], &[0, 3]), SUBSET);
    assert_eq!(rt; bytes(&plane, &[0, 4], &[2, 0]), SUBSET);
    // no empty axis makes up for another
    assert_eq!(rt; bytes(&plane, &[0, 0], &[0, 4]), SUBSET);
    assert_eq!(rt; bytes(&plane, &[0, 0], &[4, 0]), SUBSET);
    // the array's own order of axes
    assert_eq!(rt; bytes(&plane, &[0, 0], &[3, 2]), SUBSET);
}

#[test]
fn outside_by_far(rt: HostRuntime) {
    let line = form(&rt, &[5], 1, &[0]);
    assert_eq!(rt; bytes(&line, &[MAX], &[MAX]), SUBSET);
    assert_eq!(rt; bytes(&line, &[MAX], &[0]), SUBSET);
    assert_eq!(rt; bytes(&line, &[MAX], &[1]), SUBSET);
    assert_eq!(rt; bytes(&line, &[0], &[MAX]), SUBSET);
    assert_eq!(rt; bytes(&line, &[1], &[MAX]), SUBSET);
    let plane = form(&rt, &[2, 3], 3, &[0; 2]);
    assert_eq!(rt; bytes(&plane, &[0, 0], &[MAX, MAX]), SUBSET);
    assert_eq!(rt; bytes(&plane, &[1, MAX], &[1, 2]), SUBSET);
}

#[test]
fn other_dimensions(rt: HostRuntime) {
    let plane = form(&rt, &[2, 3], 3, &[0; 2]);
    assert_eq!(rt; bytes(&plane, &[], &[]), SUBSET);
    assert_eq!(rt; bytes(&plane, &[0], &[2]), SUBSET);
    assert_eq!(rt; bytes(&plane, &[0, 0], &[2]), SUBSET);
    assert_eq!(rt; bytes(&plane, &[0], &[2, 3]), SUBSET);
    assert_eq!(rt; bytes(&plane, &[0, 0, 0], &[2, 3, 0]), SUBSET);
    assert_eq!(rt; bytes(&plane, &[0, 0, 0], &[2, 3]), SUBSET);
    assert_eq!(rt; bytes(&plane, &[0, 0], &[2, 3, 1]), SUBSET);
}

// A longer output keeps what lies past the subset.
#[test]
fn read_line(rt: HostRuntime) {
    let line = form(&rt, &[5], 1, &[0]);
    let array = [10, 11, 12, 13, 14];
    let mut output = [9; 4];
    let middle = ArraySubset {
        start: &[1],
        shape: &[3],
    };
    assert_eq!(rt; middle.read(&line, &array, &mut output), Ok(3));
    assert_eq!(rt; output, [11, 12, 13, 9]);
    let last = ArraySubset {
        start: &[4],
        shape: &[1],
    };
    assert_eq!(rt; last.read(&line, &array, &mut output), Ok(1));
    assert_eq!(rt; output, [14, 12, 13, 9]);
    let none = ArraySubset {
        start: &[5],
        shape: &[0],
    };
    assert_eq!(rt; none.read(&line, &array, &mut output), Ok(0));
    assert_eq!(rt; none.read(&line, &array, &mut []), Ok(0));
    assert_eq!(rt; output, [14, 12, 13, 9]);
}

#[test]
fn read_plane(rt: HostRuntime) {
    let plane = form(&rt, &[2, 3], 3, &[0; 2]);
    let array = [1, 101, 2, 102, 3, 103, 4, 104, 5, 105, 6, 106];
    let mut output = [9; 8];
    let corner = ArraySubset {
        start: &[0, 1],
        shape: &[2, 2],
    };
    assert_eq!(rt; corner.read(&plane, &array, &mut output), Ok(8));
    assert_eq!(rt; output, [2, 102, 3, 103, 5, 105, 6, 106]);
    let one = ArraySubset {
        start: &[1, 0],
        shape: &[1, 1],
    };
    assert_eq!(rt; one.read(&plane, &array, &mut output), Ok(2));
    assert_eq!(rt; output, [4, 104, 3, 103, 5, 105, 6, 106]);
    let none = ArraySubset {
        start: &[0, 3],
        shape: &[2, 0],
    };
    assert_eq!(rt; none.read(&plane, &array, &mut output), Ok(0));
}

#[test]
fn read_space(rt: HostRuntime) {
    let space = form(&rt, &[2, 2, 3], 1, &[0]);
    let array = [0, 1, 2, 10, 11, 12, 100, 101, 102, 110, 111, 112];
    let mut output = [9; 4];
    let rows = ArraySubset {
        start: &[0, 1, 1],
        shape: &[2, 1, 2],
    };
    assert_eq!(rt; rows.read(&space, &array, &mut output), Ok(4));
    assert_eq!(rt; output, [11, 12, 111, 112]);
}

#[test]
fn read_four_axes(rt: HostRuntime) {
    let form = form(&rt, &[2, 1, 2, 3], 2, &[0]);
    let array = [0, 1, 2, 10, 11, 12, 100, 101, 102, 110, 111, 112];
    let mut output = [9; 3];
    let column = ArraySubset {
        start: &[1, 0, 0, 2],
        shape: &[1, 1, 2, 1],
    };
    assert_eq!(rt; column.read(&form, &array, &mut output), Ok(2));
    assert_eq!(rt; output, [102, 112, 9]);
}

// The subset comes first, then the array, then the output.
#[test]
fn read_refused(rt: HostRuntime) {
    let plane = form(&rt, &[2, 2], 1, &[0]);
    let mut output = [9; 4];
    let row = ArraySubset {
        start: &[1, 0],
        shape: &[1, 2],
    };
    assert_eq!(rt;
        row.read(&plane, &[1, 2, 3], &mut output),
        Err(Fault::Length)
    );
    assert_eq!(rt;
        row.read(&plane, &[1, 2, 3, 4, 5], &mut output),
        Err(Fault::Length)
    );
    assert_eq!(rt; row.read(&plane, &[1, 2, 3], &mut []), Err(Fault::Length));
    assert_eq!(rt;
        row.read(&plane, &[1, 2, 3, 4], &mut [0]),
        Err(Fault::BufferShort)
    );
    let past = ArraySubset {
        start: &[1, 0],
        shape: &[2, 2],
    };
    assert_eq!(rt; past.read(&plane, &[1, 2, 3, 4], &mut output), SUBSET);
    assert_eq!(rt; past.read(&plane, &[1, 2, 3], &mut output), SUBSET);
    assert_eq!(rt; past.read(&plane, &[1, 2, 3, 4], &mut []), SUBSET);
    assert_eq!(rt; past.read(&plane, &[], &mut []), SUBSET);
    assert_eq!(rt; output, [9; 4]);
}

#[test]
fn write_column(rt: HostRuntime) {
    let plane = form(&rt, &[2, 3], 3, &[0; 2]);
    let mut array = [1, 0, 2, 0, 3, 0, 4, 0, 5, 0, 6, 0];
    let column = ArraySubset {
        start: &[0, 1],
        shape: &[2, 1],
    };
    assert_eq!(rt; column.write(&plane, &[7, 0, 8, 0], &mut array), Ok(()));
    assert_eq!(rt; array, [1, 0, 7, 0, 3, 0, 4, 0, 8, 0, 6, 0]);
    let none = ArraySubset {
        start: &[1, 1],
        shape: &[0, 2],
    };
    assert_eq!(rt; none.write(&plane, &[], &mut array), Ok(()));
    assert_eq!(rt; array, [1, 0, 7, 0, 3, 0, 4, 0, 8, 0, 6, 0]);
}

#[test]
fn write_space(rt: HostRuntime) {
    let space = form(&rt, &[2, 2, 2], 1, &[0]);
    let mut array = [0; 8];
    let back = ArraySubset {
        start: &[1, 0, 1],
        shape: &[1, 2, 1],
    };
    assert_eq!(rt; back.write(&space, &[1, 2], &mut array), Ok(()));
    assert_eq!(rt; array, [0, 0, 0, 0, 0, 1, 0, 2]);
    let all = ArraySubset {
        start: &[0, 0, 0],
        shape: &[2, 2, 2],
    };
    assert_eq!(rt;
        all.write(&space, &[1, 2, 3, 4, 5, 6, 7, 8], &mut array),
        Ok(())
    );
    assert_eq!(rt; array, [1, 2, 3, 4, 5, 6, 7, 8]);
}

#[test]
fn write_wide(rt: HostRuntime) {
    let line = form(&rt, &[2], 7, &[0; 8]);
    let mut array = [1; 16];
    let last = ArraySubset {
        start: &[1],
        shape: &[1],
    };
    assert_eq!(rt; last.write(&line, &[2; 8], &mut array), Ok(()));
    assert_eq!(rt; array, [1, 1, 1, 1, 1, 1, 1, 1, 2, 2, 2, 2, 2, 2, 2, 2]);
    let four = form(&rt, &[1, 1, 1, 2], 5, &[0; 4]);
    let mut array = [1; 8];
    let first = ArraySubset {
        start: &[0; 4],
        shape: &[1; 4],
    };
    assert_eq!(rt; first.write(&four, &[3; 4], &mut array), Ok(()));
    assert_eq!(rt; array, [3, 3, 3, 3, 1, 1, 1, 1]);
}

// The subset comes first, and nothing is written.
#[test]
fn write_refused(rt: HostRuntime) {
    let plane = form(&rt, &[2, 2], 1, &[0]);
    let mut array = [1, 2, 3, 4];
    let row = ArraySubset {
        start: &[1, 0],
        shape: &[1, 2],
    };
    assert_eq!(rt; row.write(&plane, &[7], &mut array), Err(Fault::Length));
    assert_eq!(rt;
        row.write(&plane, &[7, 8, 9], &mut array),
        Err(Fault::Length)
    );
    assert_eq!(rt;
        row.write(&plane, &[7, 8], &mut array[..3]),
        Err(Fault::Length)
    );
    assert_eq!(rt; row.write(&plane, &[7, 8], &mut [0; 5]), Err(Fault::Length));
    assert_eq!(rt; row.write(&plane, &[], &mut []), Err(Fault::Length));
    let past = ArraySubset {
        start: &[0, 1],
        shape: &[2, 2],
    };
    assert_eq!(rt;
        past.write(&plane, &[7, 8, 9, 10], &mut array),
        Err(Fault::Subset)
    );
    assert_eq!(rt; past.write(&plane, &[7], &mut array), Err(Fault::Subset));
    assert_eq!(rt; past.write(&plane, &[], &mut []), Err(Fault::Subset));
    assert_eq!(rt; array, [1, 2, 3, 4]);
}
