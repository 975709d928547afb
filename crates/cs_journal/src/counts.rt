//! What a run counts of each of its passes.

/// What a run counts of a pass that it gave, so that it can tell whether a pass that a caller
/// brings is that pass as it is now (`matching`).
#[derive(Clone, Copy, Debug, PartialEq, Eq)]
pub(crate) struct PassCounts {
    /// How many entries came under the pass.
    pub(crate) entries: usize,
    /// How many opens it has now.
    pub(crate) opens: usize,
    /// The place of its last entry; None if it has no entry.
    pub(crate) last: Option<u32>,
}
