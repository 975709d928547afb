//! The options of `picks`.

/// How many sets are drawn, and by which seed.
#[derive(Clone, Copy, Debug, PartialEq, Eq)]
pub struct Sample {
    /// How many sets.
    pub count: u32,
    /// The same seed draws the same sets.
    pub seed: u64,
}

/// A profile of file systems, by the name that the header of a trace has for it.
#[derive(Clone, Copy, Debug, PartialEq, Eq)]
pub enum ProfileName {
    /// Only changes of the same directory entry are kept in order.
    Blocks,
    /// All changes of directory entries are kept in order.
    Ordered,
    /// As Ordered, and a sync makes earlier ones durable; of version 4 of traces.
    Journal,
}

/// Which sets `picks` prints: those of families, or all of them, or some that are drawn.
#[derive(Clone, Copy, Debug, PartialEq, Eq)]
pub struct PicksOptions {
    /// For each micro-operation the least set that has it.
    pub lost: bool,
    /// For each prefix and each file, the prefix without the file's changes that no sync covers.
    pub files: bool,
    /// All sets that a crash may leave.
    pub every: bool,
    /// Of all sets only those that a file system of this profile may leave too; None for the
    /// trace's own profile. Only with `every`.
    pub profile: Option<ProfileName>,
    /// Of all sets only the first of those that leave equal states. Only with `every`.
    pub different: bool,
    /// Prints only how many sets there are. Only with `every`.
    pub count: bool,
    /// No set is printed if there are more than this many. For `every`.
    pub most: u32,
    /// Sets that are drawn at random; None without `--sample`.
    pub sample: Option<Sample>,
}
