//! Laws of what needs what. A call of a function here does nothing: its contract is the law.
ghost use Rattle.std.specs.Prelude.{◌≡◌, ◌↔◌, ◌<◌, ℕ, List, length, true};
ghost use Rattle.cs_sets.specs.Chains.{Chain, by_chain};
ghost use Rattle.cs_apm.specs.Earlier.Same.{IsAsBefore, IsOfEarlierVersion};
ghost use Rattle.cs_apm.specs.Orders.{needs_by, order_by};
ghost use Rattle.cs_sets.specs.Orders.{needs_in};
ghost use Rattle.cs_apm.specs.Reasons.{Needs};
ghost use Rattle.cs_sets.specs.Sets.{IsAllowed};
ghost use Rattle.cs_apm.specs.States.{crash_state_of};
ghost use Rattle.cs_micro.specs.Micros.{AreLegalFromStart};
ghost use Rattle.cs_trace_lines.specs.declared.profile.Profile.{Profile};
ghost use Rattle.cs_tree_model.specs.Tree.{IsTree};

use cs_micro::Micros;
use cs_micro::laws::earlier_versions_break_up_as_before;
use cs_names::laws::know;
use cs_sets::Order;
use cs_trace::Trace;

/// The rules as tests (`specs/Rules`), the rules as sentences (`specs/Reasons`), and the order of a
/// trace agree on what needs what on a file system of each profile, and so on which sets are
/// allowed. What a micro-operation needs is before it.
pub fn rules_are_sentences(micros: &Micros)
    ensures sentences { (profile : Profile) (i j : ℕ) → (needs_by micros.now profile i j ≡ true)
        ↔ Needs micros.now.ops micros.now.syncs micros.now.version profile i j }
    ensures order { (profile : Profile) (i j : ℕ) → j < length micros.now.ops
        → needs_in (order_by micros.now profile) i j ≡ needs_by micros.now profile i j }
    ensures before { (profile : Profile) (i j : ℕ) → needs_by micros.now profile i j ≡ true
        → i < j }
    ensures sets { (profile : Profile) (places : List ℕ)
        → IsAllowed (needs_in (order_by micros.now profile))
        (length (order_by micros.now profile)) places
        ↔ IsAllowed (needs_by micros.now profile) (length micros.now.ops) places }
{}

/// For a trace of versions 1 to 3, the definitions of today (`specs`) and those from before version
/// 4 (`specs/Earlier`) agree: on what needs what by any chain, and on the tree that each allowed
/// set leaves.
pub fn earlier_versions_keep_their_states(trace: &Trace)
    requires { IsOfEarlierVersion trace.now }
    ensures { IsAsBefore trace.now }
{
    // By the contract of `operations`, the entries at the start are a tree, and each operation is
    // legal in what those before it leave. By that of `file_count`, no file is too large, and by
    // those of `records` and `nodes`, paths ascend, and each has a node.
    know(trace.operations());
    know(trace.file_count());
    know(trace.records());
    know(trace.nodes());
    earlier_versions_break_up_as_before(trace);
}

/// An order says that place `j` needs place `i` by a chain exactly if there is a chain of places
/// from `i` to `j`, of which each needs the one before it.
pub fn chains_are_chains(order: &Order)
    ensures { (i j : ℕ) → (by_chain (needs_in order.now) i j ≡ true)
        ↔ ((n : ℕ) × Chain (needs_in order.now) n i j) }
{
    // By the contract of `len`, an order is short, and each operation needs only earlier ones.
    know(order.len());
}

/// The state of every allowed set of a trace's micro-operations is a tree, whichever profile allows
/// it: each path is reached from the root, and no directory is below itself.
pub fn states_are_trees(trace: &Trace, micros: &Micros)
    requires version { micros.now.version ≡ trace.now.version }
    requires legal { AreLegalFromStart trace.now micros.now }
    ensures { (profile : Profile) (places : List ℕ)
        → IsAllowed (needs_by micros.now profile) (length micros.now.ops) places
        → IsTree (crash_state_of trace.now micros.now places) }
{
    // By the contract of `operations`, the entries at the start are a tree.
    know(trace.operations());
}
