// What a trace asks for, one command a line.

use crate::Shape;

/// A command. Stack cells are named by their index from the top, 0 being the top cell.
#[derive(Clone, Copy, Debug, PartialEq, Eq)]
pub enum Command {
    /// Makes an object and pushes its base.
    New(Shape),
    /// Pushes a word.
    Push(u32),
    /// Pushes a cell again.
    Dup(u32),
    /// Removes this many cells from the top.
    Pop(u32),
    /// Pushes the word of a cell plus a number of bytes, which must stay in the object.
    Inner(u32, u32),
    /// Pushes a slot of the object that a cell means.
    Get(u32, u32),
    /// Writes into a slot of the object that a cell means the word of another cell: cell, slot, cell.
    Put(u32, u32, u32),
    /// Pushes the weak reference to the object that a cell means.
    Weak(u32),
    /// Pushes the target of the weak reference that a cell means.
    Look(u32),
    /// Makes a scanned area: counted cells, cells.
    Root(u32, u32),
    /// Makes an area that isn't scanned.
    Fixed(u32),
    /// Gives an area back.
    DropArea(u32),
    /// Pushes a cell of an area: area, cell.
    AreaGet(u32, u32),
    /// Writes into a cell of an area the word of a stack cell: area, cell, stack cell.
    AreaPut(u32, u32, u32),
    /// Frees what counting alone shows to be dead.
    Reap,
    /// Frees all that nothing reaches.
    Collect,
    /// Begins an incremental cycle.
    Begin,
    /// Scans gray objects until the cost is at least this.
    Step(u32),
    /// Ends the cycle and frees what it didn't reach.
    Finish,
    /// Tells of the object that a cell means.
    Map(u32),
    /// Tells how many objects, zero-count objects, areas and free pages there are.
    Stat,
}
