//! The profiles whose file systems may leave the set of a state.
ghost use Rattle.std.specs.Prelude.{◌≡◌, ◌↔◌, IfOk, IsTrue};
ghost use Rattle.cs_list.specs.Profiles.{AreOrders, HasProfiles, MayBeLeftByJournal};
ghost use Rattle.cs_list.specs.Profiles.{profiles_array};

use cs_apm::{Order, may_be_left, order_by};
use cs_micro::Micros;
use cs_trace::Profile;
use std::alloc::{AllocError, Global};

/// Which profiles a set has: those whose file systems may leave it.
#[derive(Clone, Copy, Debug, PartialEq, Eq)]
pub struct Profiles {
    /// A file system that keeps only changes of the same directory entry in order may leave it.
    pub blocks: bool,
    /// So may one that keeps all changes of entries in order.
    pub ordered: bool,
    /// So may one with one journal, in which a sync makes earlier changes of entries durable, too.
    /// False for a trace of an earlier version than the fourth, which has no such profile.
    pub journal: bool,
}

impl Profiles {
    /// The names as a JSON array, in the order of the fields.
    pub fn array(self) -> &'static str
        ensures { result.now ≡ profiles_array self.blocks self.ordered self.journal }
    {
        match (self.blocks, self.ordered, self.journal) {
            (false, false, false) => "[]",
            (false, false, true) => "[\"journal\"]",
            (false, true, false) => "[\"ordered\"]",
            (false, true, true) => "[\"ordered\",\"journal\"]",
            (true, false, false) => "[\"blocks\"]",
            (true, false, true) => "[\"blocks\",\"journal\"]",
            (true, true, false) => "[\"blocks\",\"ordered\"]",
            (true, true, true) => "[\"blocks\",\"ordered\",\"journal\"]",
        }
    }
}

/// The order of a trace's micro-operations on a file system of each profile.
#[derive(Drop)]
pub struct Orders {
    /// That of the profile `blocks`.
    pub blocks: Order,
    /// That of the profile `ordered`.
    pub ordered: Order,
    /// That of the profile `journal`.
    pub journal: Order,
}

impl Orders {
    /// All three orders. The error is out of memory.
    pub fn of(alloc: Global, micros: &Micros) -> Result<Orders, AllocError>
        ensures { IfOk result (λ orders. AreOrders micros.now orders) }
    {
        Ok(Orders {
            blocks: order_by(alloc, micros, Profile::Blocks)?,
            ordered: order_by(alloc, micros, Profile::Ordered)?,
            journal: order_by(alloc, micros, Profile::Journal)?,
        })
    }
}

/// Whether the trace is one of the fourth version, and a file system of the profile `journal` may
/// leave the set. Earlier versions have no such profile. `orders` are those of the same
/// micro-operations.
fn may_be_left_by_journal(micros: &Micros, orders: &Orders, places: &[u32]) -> bool
    requires { AreOrders micros.now orders.now }
    ensures { IsTrue result ↔ MayBeLeftByJournal micros.now places.now }
{
    micros.version().is_fourth() && may_be_left(micros, Profile::Journal, &orders.journal, places)
}

/// The profiles of the set of micro-operations at these places. `orders` are those of the same
/// micro-operations.
pub fn profiles_of(micros: &Micros, orders: &Orders, places: &[u32]) -> Profiles
    requires { AreOrders micros.now orders.now }
    ensures { HasProfiles micros.now places.now result }
{
    Profiles {
        blocks: may_be_left(micros, Profile::Blocks, &orders.blocks, places),
        ordered: may_be_left(micros, Profile::Ordered, &orders.ordered, places),
        journal: may_be_left_by_journal(micros, orders, places),
    }
}
