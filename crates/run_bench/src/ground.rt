//! A tree for runs, and a run with a pass.
ghost use Rattle.std.specs.Arc.{arc_value};
ghost use Rattle.std.specs.Prelude.{IfSome};
ghost use Rattle.cs_journal.specs.Bounds.{CanGrow};
ghost use Rattle.cs_journal.specs.Runs.{Fits};

use crate::files::{tree, users};
use crate::kind::Kind;
use cs_journal::{Pass, Run, can_grow};
use cs_overlay::Overlay;
use cs_run::{Answer, CountedRun};
use cs_tree::PlainTree;
use cs_users::Users;
use std::alloc::Global;
use std::marker::Model;
use std::sync::Arc;

/// A tree that runs can begin with, and their users.
#[derive(Drop)]
pub struct Ground {
    lower: Arc<PlainTree>,
    users: Arc<Users>,
}

impl Model for Ground {
    ghost use Rattle.std.specs.Arc.{arc_value};
    ghost use Rattle.std.specs.Prelude.{ℕ};
    ghost use Rattle.cs_journal.specs.Bounds.{CanGrow};

    ghost Value = { ℕ };

    ghost view = { λ ground. 0 };

    ghost invariant = { λ ground. CanGrow (arc_value ground.lower) };
}

/// The tree, if runs can begin with it.
fn shared(alloc: Global, tree: PlainTree) -> Option<Arc<PlainTree>>
    ensures { IfSome result (λ lower. CanGrow (arc_value lower)) }
{
    if !can_grow(&tree) {
        return None;
    }
    Arc::new(alloc, tree).ok()
}

impl Ground {
    pub fn new(alloc: Global, tree: PlainTree) -> Option<Ground> {
        let lower = shared(alloc, tree)?;
        let users = Arc::new(alloc, users(alloc)?).ok()?;
        Some(Ground { lower, users })
    }

    /// The tree with a file of 1 MB and nested directories.
    pub fn level(alloc: Global) -> Option<Ground> {
        Ground::new(alloc, tree(alloc)?)
    }

    /// A fresh run over it.
    pub fn run(&self, alloc: Global) -> Option<Run<PlainTree>> {
        Run::fresh(alloc, self.lower.clone().ok()?, self.users.clone().ok()?).ok()
    }

    /// A run over it that keeps no journal.
    pub fn plain(&self, alloc: Global) -> Option<CountedRun<Overlay<PlainTree>>> {
        let users = users(alloc)?;
        let tree = Overlay::over(alloc, self.lower.clone().ok()?);
        Some(CountedRun::new(alloc, tree, users))
    }
}

/// Makes so many calls under a pass, and returns how many are granted.
// the only place with steps, so that they are inline there
pub fn step_all(
    alloc: Global,
    run: &mut Run<PlainTree>,
    pass: &mut Pass,
    kind: Kind,
    blocks: &[u8],
    count: u64,
) -> u64
    requires { Fits run.old pass.old }
    ensures { Fits run.new pass.new }
{
    let mut done = 0u64;
    for place in 0..count {
        if let Some(call) = kind.call(alloc, blocks, place) {
            let answer = run.step(alloc, pass, 1, call);
            let is_granted = !matches!(answer, Answer::Denied(_) | Answer::Short);
            done = done.wrapping_add(u64::from(is_granted));
        }
    }
    done
}

/// A run, and its first pass.
#[derive(Drop)]
pub struct Side {
    run: Run<PlainTree>,
    pass: Pass,
}

impl Model for Side {
    ghost use Rattle.std.specs.Prelude.{ℕ};
    ghost use Rattle.cs_journal.specs.Runs.{Fits};

    ghost Value = { ℕ };

    ghost view = { λ side. 0 };

    ghost invariant = { λ side. Fits side.run side.pass };
}

impl Side {
    /// A fresh run.
    pub fn fresh(alloc: Global, ground: &Ground) -> Option<Side> {
        let mut run = ground.run(alloc)?;
        let pass = run.new_pass(alloc).ok()?;
        Some(Side { run, pass })
    }

    /// Makes so many calls, and returns how many are granted.
    pub fn step_all(&mut self, alloc: Global, kind: Kind, blocks: &[u8], count: u64) -> u64 {
        step_all(alloc, &mut self.run, &mut self.pass, kind, blocks, count)
    }
}
