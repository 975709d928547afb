//! The options of `list`.

/// What `list` prints in addition to the micro-operations and the states, and which families of
/// sets its plan has in addition to those that all commands can have.
#[derive(Clone, Copy, Debug)]
pub struct ListOptions {
    /// After each micro-operation the number of the trace's line that it came from, and, if it
    /// changes a file, a path that the file has there.
    pub lines: bool,
    /// After each state the number of the first one with an equal tree.
    pub same: bool,
    /// A JSON object on each line, which has all of that and what each micro-operation needs.
    pub json: bool,
    /// Adds the states of the sets that `picks --lost` prints.
    pub lost: bool,
    /// Adds the states of the sets that `picks --files` prints.
    pub files: bool,
}

impl ListOptions {
    /// No option: only the micro-operations and the states of the plan.
    pub const NONE: ListOptions = ListOptions {
        lines: false,
        same: false,
        json: false,
        lost: false,
        files: false,
    };
}
