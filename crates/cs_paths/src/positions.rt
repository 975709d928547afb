//! Laws of where directories are. A call of a function here does nothing: its contract is the law.
ghost use Rattle.std.specs.Prelude.{ℕ, List, length};
ghost use Rattle.cs_sets.specs.Sets.{IsAllowed};
ghost use Rattle.cs_apm.specs.Atlases.{IsAtlas, atlas_in};
ghost use Rattle.cs_apm.specs.Orders.{needs_of};
ghost use Rattle.cs_apm.specs.States.{start_state, state_of};
ghost use Rattle.cs_paths.specs.PathOrders.{AreAtPositions, KeepsFirst, moves_kept, positions_of};

use cs_apm::tables::Tables;
use cs_micro::Micros;
use cs_trace::Trace;

/// Of the moves of directories, an allowed set has the first so many. In what it leaves, each
/// directory that is there is at the entry to which these moves put it: the one that
/// `PathOrder::positions` has for it, in the order for this number of moves.
pub fn directories_are_where_moves_put_them(trace: &Trace, micros: &Micros, tables: &Tables)
    requires { IsAtlas trace.now micros.now (atlas_in tables.now) }
    ensures first { (places : List ℕ)
        → IsAllowed (needs_of micros.now) (length micros.now.ops) places
        → KeepsFirst micros.now.ops places (moves_kept micros.now.ops places) }
    ensures there { (places : List ℕ)
        → IsAllowed (needs_of micros.now) (length micros.now.ops) places
        → AreAtPositions (state_of (start_state trace.now) micros.now.ops places).entries
        tables.now.entries.items
        (positions_of micros.now.ops tables.now (moves_kept micros.now.ops places)) }
{}
