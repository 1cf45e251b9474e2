// A heap that closes itself.
use crate::finals::Finals;
use mm_gc::Gc;

/// The heap behind a handle, and what C is to be told of its finalizers.
pub struct Owned {
    pub gc: Gc,
    pub finals: Finals,
}

impl Drop for Owned {
    fn drop(self) {
        let Owned { gc, finals } = self;
        drop(finals);
        gc.close();
    }
}
