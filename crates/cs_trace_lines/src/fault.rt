//! Why one line can't be read. The fault of a whole trace, with the line's number, is in cs_trace.

/// Why a line can't be read.
#[derive(Clone, Copy, Debug, PartialEq, Eq)]
pub enum LineFault {
    /// The text is no line of a trace of the version.
    Syntax,
    /// Memory ran out. Whether the text is a line isn't known then.
    Memory,
}
