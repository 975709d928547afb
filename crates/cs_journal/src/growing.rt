//! Trees whose versions and numbers can't overflow while a journal grows.
ghost use Rattle.std.specs.Prelude.{◌↔◌, IsTrue};
ghost use Rattle.cs_journal.specs.Bounds.{CanGrow};

use cs_names::limits::JOURNAL_ENTRIES;
use cs_run::greatest_version;
use cs_tree_model::TreeRead;

/// Whether each version (of 32 bits) and the next number (of 64) can grow by one with every entry
/// of a journal without overflow. False only for a tree with a version near 2^32 or a number near
/// 2^64. It looks at every number of a file. Library surface: no command calls it, because each
/// state of a scene is proved to be such a tree.
pub fn can_grow<L: TreeRead>(tree: &L) -> bool
    ensures { IsTrue result ↔ CanGrow (L.tree tree.now) }
{
    let entries = JOURNAL_ENTRIES as u64;
    u64::from(greatest_version(tree)) < (1 << 32) - entries
        && tree.last_number() < u64::MAX - entries + 1
}
