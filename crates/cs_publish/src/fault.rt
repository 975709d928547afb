//! Why not all states could be published.
ghost use Rattle.std.specs.Prelude.{◌≢◌};

/// Why not all states could be published.
#[derive(Clone, Copy, Debug, PartialEq, Eq)]
pub enum PublishAllFault {
    /// The number of workers is 0 or above WORKERS.
    Workers,
    /// Out of memory, or no thread could be started.
    Memory,
    /// A number or a state was lost between threads.
    Channel,
}

/// Why a state didn't come from the workers, or wasn't published: as `PublishAllFault` without
/// Workers.
#[derive(Clone, Copy, Debug, PartialEq, Eq)]
pub(crate) enum Lost {
    /// Out of memory, or no thread could be started.
    Memory,
    /// A number or a state was lost between threads.
    Channel,
}

/// The fault of the same name, as callers of this crate see it. It is never Workers.
pub(crate) fn fault_of(lost: Lost) -> PublishAllFault
    ensures { result ≢ PublishAllFault.Workers }
{
    match lost {
        Lost::Memory => PublishAllFault::Memory,
        Lost::Channel => PublishAllFault::Channel,
    }
}
