//! What the states of a plan with holes cover.
ghost use Rattle.std.specs.Prelude.{◌≡◌, ℕ, List, true};
ghost use Rattle.cs_plan.specs.Plans.{plan_of};
ghost use Rattle.cs_picks.specs.Covering.{HasPairs, HasSingles};

use cs_names::laws::know;
use cs_plan::Plan;
use cs_sets::Order;

/// What a plan that was made with holes covers. If a crash may leave a set that has an operation
/// and lacks an earlier one, some state of the plan also has the first and lacks the earlier one.
/// And a set that lacks, of the operations before its last, exactly one and all that need that one,
/// is a state of the plan. A call does nothing: its contract is the law.
pub fn plan_with_holes_covers(order: &Order, plan: &Plan)
    ensures pairs { (picks : List (List ℕ)) → plan.now ≡ plan_of order.now true picks
        → HasPairs order.now plan.now }
    ensures singles { (picks : List (List ℕ)) → plan.now ≡ plan_of order.now true picks
        → HasSingles order.now plan.now }
{
    // that each operation needs only earlier ones
    know(order.len());
}
