// Bytes that are kept in memory that was reserved for them.
ghost use Rattle.std.specs.Prelude.{◌≡◌, ◌+◌, ◌-◌, ◌<◌, ◌≤◌, ◌++◌, ◌↔◌, ◌⊎◌, [], Some, length, take, vec_len};
ghost use Rattle.std.specs.Prelude.{vec_capacity};
ghost use Rattle.std.specs.Prelude.{IfOk, IfSome, IsTrue};

use crate::NoMemory;
use std::alloc::Global;

#[derive(Drop)]
pub(crate) struct Store {
    kept: Vec<u8>,
    room: usize,
    // More bytes came than there was room for.
    spilled: bool,
    ghost within: { vec_len kept ≤ room },
    ghost reserved: { room ≤ vec_capacity kept },
}

impl Store {
    ghost use Rattle.mm_io.specs.Store.{told_of};

    pub(crate) fn make(alloc: Global, room: usize) -> Result<Store, NoMemory>
        ensures room { IfOk result (λ store. store.room ≡ room) }
        ensures told { IfOk result (λ store. told_of store ≡ Some []) }
        ensures empty { IfOk result (λ store. store.kept.items ≡ []) }
    {
        Ok(Store {
            kept: Vec::with_capacity(alloc, room)?,
            room,
            spilled: false,
        })
    }

    /// Keeps the bytes that there is room for, and takes no memory.
    pub(crate) fn put(&mut self, bytes: &[u8])
        ensures kept { self.new.kept.items ≡
            self.old.kept.items ++ take (self.old.room - vec_len self.old.kept) bytes.now }
        ensures spilled { IsTrue self.new.spilled
            ↔ (IsTrue self.old.spilled ⊎ (self.old.room < vec_len self.old.kept + length bytes.now)) }
        ensures room { self.new.room ≡ self.old.room }
    {
        let n = bytes.len().min(self.room - self.kept.len());
        self.spilled = self.spilled || n < bytes.len();
        self.append(&bytes[..n]);
    }

    fn append(&mut self, bytes: &[u8])
        requires { vec_len self.old.kept + length bytes.now ≤ self.old.room }
        ensures kept { self.new.kept.items ≡ self.old.kept.items ++ bytes.now }
        ensures spilled { self.new.spilled ≡ self.old.spilled }
        ensures room { self.new.room ≡ self.old.room }
    {
        match self.kept.extend_from_slice(bytes) {
            Ok(()) => {}
            Err(_) => unreachable!(),
        }
    }

    pub(crate) fn kept(&self) -> &[u8]
        ensures kept { result.now ≡ self.now.kept.items }
        ensures told { IfSome (told_of self.now) (λ bytes. result.now ≡ bytes) }
    {
        self.kept.as_slice()
    }
}
