//! What a file system keeps in order by itself. docs/MODEL.md, "Profiles", says more.

/// Which changes of directory entries (create, delete, move, link) a file system keeps in order.
/// Writes and changes of size are equally free in all.
#[derive(Clone, Copy, Debug, PartialEq, Eq)]
pub enum Profile {
    /// Only those of the same entry: of the same path in versions 1 to 3.
    Blocks,
    /// All of them, one after another.
    Ordered,
    /// All of them; and a sync that has something new to write makes all earlier ones durable, as
    /// in a file system with one journal. Only version 4 has it.
    Journal,
}
