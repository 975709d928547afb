//! Why a state couldn't be published.

/// Why a state couldn't be published.
#[derive(Clone, Copy, Debug, PartialEq, Eq)]
pub enum PublishFault {
    /// The plan has no such number, or the state was made in a scene of other content.
    Stranger,
    /// A state of that number is published already.
    Twice,
    /// Out of memory.
    Memory,
}
