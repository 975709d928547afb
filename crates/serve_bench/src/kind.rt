//! What is measured, and what each rate is held to.

use crate::keeping::Keeping;

/// Bytes of a read and of a write.
pub const BLOCK: u32 = 4_096;

/// A work that a client does again and again.
#[derive(Clone, Copy, Debug, PartialEq, Eq)]
pub enum Kind {
    /// A stat.
    Stats,
    /// A read of a block.
    Reads,
    /// A write of a block.
    Writes,
    /// A walk to a file, an open, a read of a block, and a clunk.
    Opens,
    /// A walk of no name, a create, and a remove.
    Creates,
    /// A stat, a read and a write of a block, and then what `Opens` does.
    Mixed,
}

impl Kind {
    pub const ALL: [Kind; 6] = [
        Kind::Stats,
        Kind::Reads,
        Kind::Writes,
        Kind::Opens,
        Kind::Creates,
        Kind::Mixed,
    ];

    pub fn name(self) -> &'static str {
        match self {
            Kind::Stats => "stat",
            Kind::Reads => "read of 4 kB",
            Kind::Writes => "write of 4 kB",
            Kind::Opens => "walk, open, read, clunk",
            Kind::Creates => "walk, create, remove",
            Kind::Mixed => "mixed",
        }
    }

    /// The least part of a bare server's rate that it must have; None if it isn't held to that
    /// server.
    pub fn least(self, beside: Keeping) -> Option<f64> {
        match beside {
            Keeping::Nothing => self.least_of_forgetting(),
            Keeping::Blocks => match self {
                Kind::Writes => Some(0.9),
                Kind::Mixed => Some(0.85),
                _ => None,
            },
            Keeping::LargeBlocks => match self {
                Kind::Writes => Some(0.8),
                _ => None,
            },
        }
    }

    /// The same of the rate of a server that forgets.
    fn least_of_forgetting(self) -> Option<f64> {
        match self {
            Kind::Stats | Kind::Reads => Some(0.9),
            Kind::Writes => None,
            Kind::Opens => Some(0.88),
            Kind::Creates | Kind::Mixed => Some(0.85),
        }
    }

    /// How many times as long as the other's 99 of 100 of its works may take.
    pub fn most_of_tail(self) -> f64 {
        match self {
            Kind::Mixed => 1.2,
            _ => 2.0,
        }
    }
}
