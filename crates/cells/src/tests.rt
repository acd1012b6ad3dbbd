// Answers worked out by hand from what cells are to do.
use super::cell::Cell;
use super::chosen_cell::ChosenCell;
use super::paged_cell::{PagedCell, check_pages};
use super::slot::{Slot, check_slot};
use form::fault::Fault;

const LAYOUT: Result<(), Fault> = Err(Fault::CellLayout);

// A buffer in which no two neighbours, and no two pages, are alike.
fn counted() -> [u8; 1024] {
    let mut buffer = [0; 1024];
    for i in 0..1024 {
        buffer[i] = (i % 251) as u8;
    }
    buffer
}

#[test]
fn slot_checks(rt: HostRuntime) {
    assert_eq!(rt; check_slot(0, None), Ok(()));
    assert_eq!(rt; check_slot(0, Some(0)), Ok(()));
    assert_eq!(rt; check_slot(0, Some(1)), LAYOUT);
    assert_eq!(rt; check_slot(8, Some(8)), Ok(()));
    assert_eq!(rt; check_slot(8, Some(9)), LAYOUT);
    assert_eq!(rt; check_slot(5000, Some(4096)), Ok(()));
    assert_eq!(rt; check_slot(5000, Some(4097)), LAYOUT);
    assert_eq!(rt; check_slot(usize::MAX, Some(usize::MAX)), LAYOUT);
}

// Absent comes first, whatever else is wrong.
#[test]
fn slot_absent(rt: HostRuntime) {
    let mut buffer = [1, 2, 3];
    let slot = Slot::new(buffer.as_mut_slice(), None);
    assert_eq!(rt; slot.length(), None);
    assert_eq!(rt; slot.read(0, 0, &mut []), Err(Fault::Absent));
    assert_eq!(rt; slot.read(0, 1, &mut []), Err(Fault::Absent));
    assert_eq!(rt; slot.read(7, 7, &mut []), Err(Fault::Absent));
}

#[test]
fn slot_read(rt: HostRuntime) {
    let mut buffer = [1, 2, 3, 4];
    let slot = Slot::new(buffer.as_mut_slice(), Some(3));
    let mut output = [9; 4];
    assert_eq!(rt; slot.length(), Some(3));
    assert_eq!(rt; slot.read(1, 2, &mut output), Ok(2));
    assert_eq!(rt; output, [2, 3, 9, 9]);
    assert_eq!(rt; slot.read(3, 0, &mut output), Ok(0));
    assert_eq!(rt; slot.read(0, 3, &mut output), Ok(3));
    assert_eq!(rt; output, [1, 2, 3, 9]);
}

#[test]
fn slot_read_refused(rt: HostRuntime) {
    let mut buffer = [1, 2, 3, 4];
    let slot = Slot::new(buffer.as_mut_slice(), Some(3));
    let mut output = [9, 9];
    assert_eq!(rt; slot.read(2, 2, &mut output), Err(Fault::ByteRange));
    assert_eq!(rt; slot.read(4, 0, &mut output), Err(Fault::ByteRange));
    assert_eq!(rt;
        slot.read(usize::MAX, usize::MAX, &mut output),
        Err(Fault::ByteRange)
    );
    assert_eq!(rt; slot.read(0, 3, &mut output), Err(Fault::BufferShort));
    // the end comes before the room
    assert_eq!(rt; slot.read(0, 4, &mut output), Err(Fault::ByteRange));
    assert_eq!(rt; output, [9, 9]);
}

// What is not replaced stays.
#[test]
fn slot_replace(rt: HostRuntime) {
    let mut buffer = [1, 2, 3, 4];
    let mut slot = Slot::new(buffer.as_mut_slice(), None);
    assert_eq!(rt; slot.capacity(), 4);
    assert_eq!(rt; slot.replace(&[0; 5]), Err(Fault::Capacity));
    assert_eq!(rt; slot.length(), None);
    assert_eq!(rt; slot.replace(&[10, 11, 12, 13]), Ok(()));
    assert_eq!(rt; slot.length(), Some(4));
    assert_eq!(rt; slot.replace(&[20]), Ok(()));
    assert_eq!(rt; slot.length(), Some(1));
    assert_eq!(rt; buffer, [20, 11, 12, 13]);
}

#[test]
fn slot_erase(rt: HostRuntime) {
    let mut buffer = [1, 2, 3, 4];
    let mut slot = Slot::new(buffer.as_mut_slice(), Some(4));
    slot.erase();
    assert_eq!(rt; slot.length(), None);
    assert_eq!(rt; slot.replace(&[]), Ok(()));
    assert_eq!(rt; slot.length(), Some(0));
    assert_eq!(rt; slot.capacity(), 4);
    assert_eq!(rt; buffer, [1, 2, 3, 4]);
}

#[test]
fn refused_slot_goes_on(rt: HostRuntime) {
    let mut buffer = [1, 2, 3, 4];
    let mut slot = Slot::new(buffer.as_mut_slice(), Some(5));
    assert_eq!(rt; slot.capacity(), 0);
    assert_eq!(rt; slot.length(), None);
    assert_eq!(rt; slot.replace(&[7]), Err(Fault::Capacity));
    assert_eq!(rt; slot.replace(&[]), Ok(()));
    assert_eq!(rt; slot.length(), Some(0));
    assert_eq!(rt; buffer, [1, 2, 3, 4]);
}

#[test]
fn refused_pages_go_on(rt: HostRuntime) {
    let mut buffer = [1, 2, 3, 4];
    let mut pages = PagedCell::new(buffer.as_mut_slice(), &[0], None);
    assert_eq!(rt; pages.capacity(), 0);
    assert_eq!(rt; pages.length(), None);
    assert_eq!(rt; pages.replace(&[7]), Err(Fault::Capacity));
    pages.erase();
    assert_eq!(rt; pages.read(0, 0, &mut []), Err(Fault::Absent));
    assert_eq!(rt; buffer, [1, 2, 3, 4]);
}

#[test]
fn long_slot(rt: HostRuntime) {
    let mut buffer = [0; 4097];
    let mut slot = Slot::new(buffer.as_mut_slice(), None);
    assert_eq!(rt; slot.capacity(), 4096);
    assert_eq!(rt; slot.replace(&[1; 4097]), Err(Fault::Capacity));
    assert_eq!(rt; slot.replace(&[1; 4096]), Ok(()));
    assert_eq!(rt; buffer[4095], 1);
    assert_eq!(rt; buffer[4096], 0);
}

#[test]
fn each_refused_cell_has_no_capacity(rt: HostRuntime) {
    let mut buffer = counted();
    assert_eq!(rt;
        PagedCell::new(buffer.as_mut_slice(), &[4], None).capacity(),
        0
    );
    assert_eq!(rt;
        PagedCell::new(buffer.as_mut_slice(), &[1, 2, 1], None).capacity(),
        0
    );
    assert_eq!(rt;
        PagedCell::new(buffer.as_mut_slice(), &[1], Some(257)).length(),
        None
    );
    assert_eq!(rt;
        PagedCell::new(buffer.as_mut_slice(), &[0; 17], None).capacity(),
        0
    );
    assert_eq!(rt;
        PagedCell::new(buffer.as_mut_slice(), &[3, 1], None).capacity(),
        512
    );
}

#[test]
fn empty_value_in_pages(rt: HostRuntime) {
    let mut buffer = counted();
    let mut pages = PagedCell::new(buffer.as_mut_slice(), &[3, 1], Some(0));
    assert_eq!(rt; pages.length(), Some(0));
    assert_eq!(rt; pages.read(0, 0, &mut []), Ok(0));
    assert_eq!(rt; pages.read(0, 1, &mut []), Err(Fault::ByteRange));
    assert_eq!(rt; pages.replace(&[9]), Ok(()));
    assert_eq!(rt; pages.replace(&[]), Ok(()));
    assert_eq!(rt; pages.length(), Some(0));
    assert_eq!(rt; &buffer[766..770], [13, 14, 9, 16].as_slice());
}

// A cell of either kind is what the one chosen is.
#[test]
fn chosen_cells(rt: HostRuntime) {
    let mut buffer = counted();
    let mut output = [0; 3];
    let mut cell = ChosenCell::Slot(Slot::new(buffer.as_mut_slice(), Some(3)));
    assert_eq!(rt; cell.read(1, 2, &mut output), Ok(2));
    assert_eq!(rt; output, [1, 2, 0]);
    cell.erase();
    assert_eq!(rt; cell.length(), None);
    let mut cell = ChosenCell::Pages(PagedCell::new(buffer.as_mut_slice(), &[2], Some(3)));
    assert_eq!(rt; cell.capacity(), 256);
    assert_eq!(rt; cell.replace(&[7, 8]), Ok(()));
    assert_eq!(rt; cell.read(0, 2, &mut output), Ok(2));
    assert_eq!(rt; output, [7, 8, 0]);
    assert_eq!(rt; buffer[513], 8);
}

#[test]
fn pages_check(rt: HostRuntime) {
    let all = [15, 14, 13, 12, 11, 10, 9, 8, 7, 6, 5, 4, 3, 2, 1, 0, 16];
    assert_eq!(rt; check_pages(0, &[], None), Ok(()));
    assert_eq!(rt; check_pages(0, &[], Some(0)), Ok(()));
    assert_eq!(rt; check_pages(4096, &all[..16], Some(4096)), Ok(()));
    // a mark over the capacity
    assert_eq!(rt; check_pages(4096, &[3], Some(257)), LAYOUT);
    assert_eq!(rt; check_pages(4096, &[3], Some(256)), Ok(()));
    // over 16 pages
    assert_eq!(rt; check_pages(8192, &all, None), LAYOUT);
    // all that is wrong at once
    assert_eq!(rt; check_pages(255, &[0; 17], Some(4353)), LAYOUT);
}

#[test]
fn pages_check_places(rt: HostRuntime) {
    // a page not wholly in the buffer
    assert_eq!(rt; check_pages(1024, &[3], None), Ok(()));
    assert_eq!(rt; check_pages(1023, &[3], None), LAYOUT);
    assert_eq!(rt; check_pages(1024, &[4], None), LAYOUT);
    assert_eq!(rt; check_pages(usize::MAX, &[usize::MAX], None), LAYOUT);
    // a page twice
    assert_eq!(rt; check_pages(1024, &[2, 3, 2], None), LAYOUT);
    assert_eq!(rt; check_pages(1024, &[0, 1, 1], None), LAYOUT);
}

// The mark lies in the middle of the second page.
#[test]
fn pages_read_in_listed_order(rt: HostRuntime) {
    let mut buffer = counted();
    let pages = PagedCell::new(buffer.as_mut_slice(), &[2, 0], Some(300));
    let mut output = [255; 5];
    assert_eq!(rt; pages.capacity(), 512);
    assert_eq!(rt; pages.length(), Some(300));
    assert_eq!(rt; pages.read(0, 2, &mut output), Ok(2));
    assert_eq!(rt; output, [10, 11, 255, 255, 255]);
    assert_eq!(rt; pages.read(254, 4, &mut output), Ok(4));
    assert_eq!(rt; output, [13, 14, 0, 1, 255]);
    assert_eq!(rt; pages.read(299, 1, &mut output), Ok(1));
    assert_eq!(rt; output, [43, 14, 0, 1, 255]);
    assert_eq!(rt; pages.read(299, 2, &mut output), Err(Fault::ByteRange));
}

// Page 2 is replaced, and of page 0 two bytes.
#[test]
fn pages_replace_in_listed_order(rt: HostRuntime) {
    let mut buffer = counted();
    let mut pages = PagedCell::new(buffer.as_mut_slice(), &[2, 0], None);
    let mut value = [77; 258];
    value[0] = 70;
    value[256] = 78;
    value[257] = 79;
    assert_eq!(rt; pages.replace(&value), Ok(()));
    assert_eq!(rt; pages.length(), Some(258));
    assert_eq!(rt; &buffer[..4], [78, 79, 2, 3].as_slice());
    assert_eq!(rt; &buffer[510..514], [8, 9, 70, 77].as_slice());
    assert_eq!(rt; &buffer[766..770], [77, 77, 15, 16].as_slice());
}

#[test]
fn adjacent_pages_swapped(rt: HostRuntime) {
    let mut buffer = counted();
    let mut pages = PagedCell::new(buffer.as_mut_slice(), &[1, 0], None);
    let mut value = [1; 512];
    value[255] = 2;
    value[256] = 3;
    value[511] = 4;
    assert_eq!(rt; pages.replace(&value), Ok(()));
    let mut output = [0; 512];
    assert_eq!(rt; pages.read(0, 512, &mut output), Ok(512));
    assert_eq!(rt; output, value);
    assert_eq!(rt; buffer[0], 3);
    assert_eq!(rt; &buffer[254..258], [1, 4, 1, 1].as_slice());
    assert_eq!(rt; &buffer[510..514], [1, 2, 10, 11].as_slice());
}

#[test]
fn pages_full(rt: HostRuntime) {
    let mut buffer = [5; 512];
    let mut pages = PagedCell::new(buffer.as_mut_slice(), &[1, 0], None);
    assert_eq!(rt; pages.replace(&[6; 512]), Ok(()));
    assert_eq!(rt; pages.replace(&[7; 513]), Err(Fault::Capacity));
    assert_eq!(rt; pages.length(), Some(512));
    assert_eq!(rt; pages.read(0, 512, &mut [0; 511]), Err(Fault::BufferShort));
    pages.erase();
    assert_eq!(rt; pages.length(), None);
}
