//! Laws of entries. A call of a function here does nothing: its contract is the law.
ghost use Rattle.std.specs.Prelude.{◌≡◌, ◌≢◌, ◌<◌, ◌+◌, ◌⊎◌, ℕ, Bool, true, List, Some};
ghost use Rattle.std.specs.FinMap.{get};
ghost use Rattle.cs_entries.specs.Entries.{Entries, EntryOp, after, all, state};
ghost use Rattle.cs_entries.specs.Legal.{IsLegal, IsTree};
ghost use Rattle.cs_entries.specs.Paths.{at_path};
ghost use Rattle.cs_entries.specs.Rules.{IsClosed, needs};
ghost use Rattle.cs_entries.specs.Sets.{AreFew, AreFixed, AreNumbered};
ghost use Rattle.cs_entries.specs.Tables.{AreNested, Table, held_in, paths_in, table_of};

/// An operation on entries that is legal in a tree leaves a tree.
pub fn legal_operations_leave_trees()
    ensures { (m : Entries) (o : EntryOp) → IsTree m → IsLegal m o → IsTree (after m o) }
{}

/// The state of every allowed set of legal operations is a tree: each entry that is left is reached
/// from the root, and each directory has one entry. Seen by paths it is a tree, too: the parent of
/// each path is a directory, and at each path is what its names lead to.
pub fn states_are_trees()
    ensures { (t : Table) (ops : ℕ → EntryOp) (n few : ℕ) (has : ℕ → Bool) → IsTree (held_in t)
        → ((k : ℕ) → k < n → IsLegal (state all (held_in t) ops k) (ops k))
        → AreNumbered (held_in t) ops n ⊎ AreFixed (held_in t) ops n
        → AreFew (held_in t) ops n few → ((j : ℕ) → has j ≡ true → j < n)
        → IsClosed (needs ops) has
        → IsTree (held_in (table_of has t ops n))
        × AreNested (paths_in (few + 1) (table_of has t ops n))
        × ((q : List (List ℕ)) → get (paths_in (few + 1) (table_of has t ops n)) q
        ≡ at_path (held_in (table_of has t ops n)) q) }
{}
