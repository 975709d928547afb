//! What a registry keeps of a run.
ghost use Rattle.std.specs.Prelude.{ℕ, IfOk, List};
ghost use Rattle.std.specs.Arc.{arc_value};
ghost use Rattle.cs_tree_model.specs.Tree.{Tree};
ghost use Rattle.cs_users.specs.Rows.{Row};
ghost use Rattle.cs_registry.specs.Keys.{Key};

use crate::key::RunKey;
use cs_plan::Built;
use cs_users::Users;
use std::alloc::{AllocError, Global};
use std::sync::Arc;

/// What a registry keeps of each run, made when the run is found for the first time: on one thread
/// `RunWithPasses` of cs_world, for threads `SharedRun` of cs_shared_runs.
pub trait Held: Drop {
    /// The trees that may be published under a number.
    ghost admits: { ℕ → Tree → Type 0 };

    /// The lists of users that a registry may have: its new runs are made with these.
    ghost suits: { List Row → Type 0 } = { λ users. Unit {0} };

    /// The value is that of a new run of the key, over the tree, with the users.
    ghost is_fresh: { Key → Tree → List Row → Self → Type 0 };

    /// What is kept of a new run of this key, or an error if memory runs out. `lower` is the tree
    /// of the run's state, which all runs over the state share. The tree and the users must be ones
    /// that `admits` and `suits` allow.
    fn fresh(
        alloc: Global,
        key: &RunKey,
        lower: Arc<Built>,
        users: Arc<Users>,
    ) -> Result<Self, AllocError>
        requires admitted { admits key.now.number (arc_value lower) }
        requires suited { suits (arc_value users) }
        ensures { IfOk result (is_fresh key.now (arc_value lower) (arc_value users)) };
}
