//! An atlas: a trace with all that its crash states share, from which the state of any allowed set
//! is made.
ghost use Rattle.std.specs.Prelude.{◌≡◌, length, IfOk};
ghost use Rattle.cs_tree_model.specs.Tree.{IsTree};
ghost use Rattle.cs_micro.specs.Micros.{AreLegalFromStart, micros_in};
ghost use Rattle.cs_apm.specs.Orders.{needs_of};
ghost use Rattle.cs_sets.specs.Sets.{IsAllowed};
ghost use Rattle.cs_apm.specs.States.{crash_state_of};

use crate::building::own_of;
use crate::file_steps::all_steps;
use crate::members::{count_members, members_of};
use crate::owner_steps::OwnerSteps;
use crate::parts::Parts;
use crate::shares::Shares;
use crate::state::State;
use crate::state_tree::StateTree;
use cs_apm::tables::Tables;
use cs_micro::Micros;
use cs_trace::Trace;
use std::alloc::{AllocError, Global};
use std::marker::Model;
use std::sync::Arc;

/// The store of a state, as `Atlas::build` returns it.
pub type Built = StateTree;

/// A trace with its micro-operations, and with what is computed once for all its states. It never
/// changes. Contracts see the trace.
#[derive(Drop)]
pub struct Atlas {
    /// All of it, which each state shares: so a state may outlive its atlas.
    parts: Arc<Parts>,
}

impl Model for Atlas {
    ghost use Rattle.std.specs.Arc.{arc_value};
    ghost use Rattle.cs_trace.specs.Traces.{Trace};
    ghost use Rattle.cs_state.specs.Parts.{AreParts};

    ghost Value = { Trace };

    ghost view = { λ atlas. (arc_value atlas.parts).trace };

    ghost invariant = { λ atlas. AreParts (arc_value atlas.parts) };
}

impl Atlas {
    /// The atlas of a trace and its micro-operations, which must be those that `break_up` returns.
    /// What all states share is computed here, once. After an error the trace and the
    /// micro-operations are dropped.
    pub fn of(alloc: Global, trace: Trace, micros: Micros) -> Result<Atlas, AllocError>
        requires broken { micros ≡ micros_in trace }
        requires legal { AreLegalFromStart trace micros }
        ensures { IfOk result (λ atlas. atlas ≡ trace) }
    {
        let tables = Tables::of(alloc, &trace, &micros)?;
        let shares = Shares::of(alloc, &trace, &micros, &tables)?;
        let steps = all_steps(alloc, &trace, micros.ops(), &tables)?;
        let owner_steps = OwnerSteps::of(alloc, micros.ops())?;
        let parts = Arc::new(
            alloc,
            Parts {
                trace,
                micros,
                tables,
                shares,
                steps,
                owner_steps,
            },
        )?;
        Ok(Atlas { parts })
    }

    /// The trace.
    pub fn trace(&self) -> &Trace
        ensures { result.now ≡ self.now }
    {
        &self.parts.trace
    }

    /// The micro-operations and sync points of the trace.
    pub fn micros(&self) -> &Micros
        ensures value { result.now ≡ micros_in self.now }
        ensures legal { AreLegalFromStart self.now result.now }
    {
        &self.parts.micros
    }

    /// The state of an allowed set, whose members are the micro-operations at these places. The
    /// order of the trace's own profile must allow it. The state shares with the others what is the
    /// same in all. (`build` of cs_apm makes a plain store of the same tree.)
    pub fn build(&self, alloc: Global, places: &[u32]) -> Result<Built, AllocError>
        requires { IsAllowed (needs_of (micros_in self.now)) (length (micros_in self.now).ops)
            places.now }
        ensures state { IfOk result
            (λ tree. tree ≡ crash_state_of self.now (micros_in self.now) places.now) }
        ensures tree { IfOk result IsTree }
    {
        let members = members_of(alloc, self.parts.micros.ops().len(), places)?;
        let moved = count_members(&members, &self.parts.shares.paths.moves);
        let own = own_of(alloc, &self.parts, moved, places)?;
        let parts = Arc::try_clone(&self.parts)?;
        Ok(StateTree::of(State {
            parts,
            members,
            moved,
            own,
        }))
    }
}
