//! A run without a journal: a tree, its opens and the users. It does one call at a time.
ghost use Rattle.std.specs.Prelude.{◌+◌};
ghost use Rattle.cs_run.specs.Laws.{AllVersBelow};
ghost use Rattle.cs_run.specs.Opens.{AreBelow};

use crate::opens::Opens;
use cs_tree_model::TreeStore;
use cs_users::Users;

/// For benchmarks and tests: no command uses it. A run that keeps no journal. It counts its calls:
/// a call raises a version by one at most, so no version overflows before the count does. Contracts
/// see its parts by `run_of`.
#[derive(Drop)]
pub struct CountedRun<T: TreeStore + Drop> {
    /// As it is after the calls so far.
    pub(crate) tree: T,
    /// Of all passes.
    pub(crate) opens: Opens,
    /// Whose rights count; they never change.
    pub(crate) users: Users,
    /// The greatest version at the start, and the calls made since.
    pub(crate) count: u32,
    ghost bounded: { AllVersBelow (count + 1) (T.TreeRead.tree tree) },
    ghost below: { AreBelow count opens.items },
}
