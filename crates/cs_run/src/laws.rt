//! Laws on what a call leaves of a run. The functions do nothing: their contracts are the laws.
ghost use Rattle.std.specs.Prelude.{◌≡◌, ◌<◌, ◌^◌, ℕ, List, Option, false, true};
ghost use Rattle.cs_permit.specs.Calls.{RulesView};
ghost use Rattle.cs_permit.specs.declared.call.Call.{Call};
ghost use Rattle.cs_run.specs.Effects.{effect_of};
ghost use Rattle.cs_run.specs.Laws.{AllVersBelow, FitsCall, OpensOne, RaisesByOne, opens_one};
ghost use Rattle.cs_run.specs.Opens.{opens_without_if};
ghost use Rattle.cs_run.specs.Outcomes.{result_by_outcome, closed_open_number};
ghost use Rattle.cs_run.specs.Pages.{IsFullest, page_after};
ghost use Rattle.cs_run.specs.Walks.{IsLongest, walk_from};
ghost use Rattle.cs_run.specs.declared.answer.Outcome.{Outcome};
ghost use Rattle.cs_run.specs.declared.turn.Turn.{Turn};
ghost use Rattle.cs_tree_model.specs.Stores.{CanStamp};
ghost use Rattle.cs_tree_model.specs.Nexts.{names_after};
ghost use Rattle.cs_tree_model.specs.Tree.{NameBytes, Tree};
ghost use Rattle.cs_users.specs.Rows.{Row};

/// A granted open or create adds one open, which has the turn's number and pass. Any other granted
/// call leaves the opens as they are, but for the one that it ends.
pub fn grants_and_opens()
    ensures one { (s : RulesView) (w : Turn) (call : Call) → opens_one call ≡ true
        → OpensOne s.opens (effect_of s w call).opens w }
    ensures kept { (s : RulesView) (w : Turn) (call : Call) → opens_one call ≡ false
        → (effect_of s w call).opens ≡ opens_without_if (closed_open_number call) w.pass s.opens }
{}

/// A call, granted or not, raises each version by at most one, and the next number by at most one.
pub fn calls_raise_by_one()
    ensures { (s : RulesView) (w : Turn) (call : Call) (o : Outcome)
        → RaisesByOne s.tree (result_by_outcome s w call o).tree }
{}

/// If all versions are below some k < 2 ^ 32, each can grow by one.
pub fn versions_can_grow()
    ensures { (k : ℕ) (t : Tree) → AllVersBelow k t → k < 2 ^ 32 → (n : ℕ) → CanStamp t n }
{}

/// A read returns at most as many bytes as it asks for, and a walk at most as many qids as it has
/// names.
pub fn answers_fit()
    ensures { (s : RulesView) (w : Turn) (call : Call) (o : Outcome)
        → FitsCall call (result_by_outcome s w call o).answer }
{}

/// A walk goes as far as it may: each name that passed leads on from the file before, and the rule
/// that the walk reports stops the next name, if one is left.
pub fn walks_are_longest()
    ensures { (t : Tree) (us : List Row) (user : List ℕ) (n : ℕ) (names : List (List ℕ)) →
        IsLongest t us user n names (walk_from t us user n names) }
{}

/// A read of a directory returns as many whole entries as fit.
pub fn pages_are_fullest()
    ensures { (t : Tree) (directory room : ℕ) (last : Option NameBytes) → IsFullest t directory room
        (names_after t directory last) (page_after t directory room last) }
{}
