// A sink into memory that never fails.
ghost use Rattle.std.specs.Prelude.{◌≡◌, [], Some, IfOk, IfSome};

use crate::store::Store;
use crate::{Failed, NoMemory, Sink};
use std::alloc::Global;

/// Keeps the first bytes that it takes, as many as it has room for. Every call answers Ok.
///
/// A write takes all of its bytes, and no memory. The sink tells its bytes until more came than it has
/// room for.
#[derive(Drop)]
pub struct ZeroFaultSink {
    store: Store,
}

impl ZeroFaultSink {
    /// `room` is how many bytes are reserved.
    pub fn make(alloc: Global, room: usize) -> Result<ZeroFaultSink, NoMemory>
        ensures taken { IfOk result (λ sink. ⟦<ZeroFaultSink as Sink>⟧.taken sink ≡ Some []) }
        ensures room { IfOk result (λ sink. ⟦<ZeroFaultSink as Sink>⟧.room sink ≡ room) }
        ensures kept { IfOk result (λ sink. ⟦<ZeroFaultSink as Sink>⟧.kept sink ≡ Some []) }
    {
        Ok(ZeroFaultSink {
            store: Store::make(alloc, room)?,
        })
    }

    /// The bytes that are kept, which are those taken so far unless more came than there is room for.
    pub fn taken(&self) -> &[u8]
        ensures kept { ⟦<ZeroFaultSink as Sink>⟧.kept self.now ≡ Some result.now }
        ensures taken { IfSome (⟦<ZeroFaultSink as Sink>⟧.taken self.now) (λ bytes. result.now ≡ bytes) }
    {
        self.store.kept()
    }
}

impl Sink for ZeroFaultSink {
    ghost use Rattle.mm_io.specs.Store.{told_of};

    ghost faults = { λ _. 0 };

    ghost taken = { λ sink. told_of sink.store };

    // Nothing is held back.
    ghost passed = { λ sink. told_of sink.store };

    ghost room = { λ sink. sink.store.room };

    ghost kept = { λ sink. Some sink.store.kept.items };

    fn write(&mut self, bytes: &[u8]) -> Result<usize, Failed> {
        self.store.put(bytes);
        Ok(bytes.len())
    }

    fn flush(&mut self) -> Result<(), Failed> {
        Ok(())
    }
}
