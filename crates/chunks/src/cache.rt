// What is kept of a cell's value: the value undone to the cache place, or absent with it.
ghost use Rattle.std.specs.Prelude.{◌≡◌, ◌≤◌, length, option_map};
ghost use Rattle.chunks.specs.Caches.{cached_of, event_bytes, value_after};

use arrayvec::ArrayVec;

#[derive(Drop)]
pub enum Cache {
    // every single can read and decode parts, so that nothing is kept
    NoPlace,
    Absent,
    Bytes(ArrayVec<u8, 4096>),
}

// What changes a cell.
#[derive(Clone, Copy)]
pub enum Event<'a> {
    // with the bytes at the cache place
    Write(&'a [u8]),
    Erase,
}

// Makes the bytes all that there are.
fn set(kept: &mut ArrayVec<u8, 4096>, bytes: &[u8])
    requires { length bytes.now ≤ 4096 }
    ensures { kept.new.items ≡ bytes.now }
{
    kept.clear();
    kept.try_extend_from_slice(bytes).unwrap();
}

impl Cache {
    // A write turns absent or bytes into the new bytes, and an erasure turns bytes into absent.
    pub(crate) fn note(&mut self, event: Event<'_>)
        requires { length (event_bytes event) ≤ 4096 }
        ensures { cached_of self.new ≡ option_map (λ _. value_after event.entry) (cached_of self.old) }
    {
        match (&mut *self, event) {
            (Cache::NoPlace, _) | (Cache::Absent, Event::Erase) => {}
            (Cache::Absent, Event::Write(bytes)) => {
                let mut kept = ArrayVec::new();
                set(&mut kept, bytes);
                *self = Cache::Bytes(kept);
            }
            (Cache::Bytes(kept), Event::Write(bytes)) => set(kept, bytes),
            (Cache::Bytes(_), Event::Erase) => *self = Cache::Absent,
        }
    }
}
