//! Points of a trace at which an application waits for the disk.
use cs_trace::Covers;

/// A sync point: an fsync, an fdatasync, an fsync_range or a sync that succeeded. What it covers of
/// what comes before it is on the disk after it. It is no micro-operation.
#[derive(Debug, Drop)]
pub struct SyncPoint {
    /// Its place: how many micro-operations come before it.
    pub at: usize,
    /// What it covers: a file, its data or a range of it, a directory, or everything.
    pub covers: Covers,
}
