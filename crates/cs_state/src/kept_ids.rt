//! The ids at which all states with the same moves of directories have the same (the kept ids), and
//! those at which they may differ (the touched ids).
ghost use Rattle.std.specs.Prelude.{◌≡◌, length, IfOk};
ghost use Rattle.cs_paths.specs.PathOrders.{ArePlaces};
ghost use Rattle.cs_state.specs.Shares.{AreForOrders, AreIds};

use crate::marks::{kept_below, kept_of, marked_ids};
use cs_apm::tables::Tables;
use cs_paths::path_order::{marks_by_path, slots_by_path};
use std::alloc::{AllocError, Global};

/// The ids of an order of paths, divided by what the steps of the trace do to their entries. An id
/// whose entry never holds anything is in neither list.
#[derive(Debug, Drop)]
pub struct KeptIds {
    /// The ids at which there is something at the start that no step touches, ascending, with 0,
    /// the root's: every state has the same there.
    pub kept: Vec<u32>,
    /// For each id, how many of `kept` are lower.
    pub kept_below: Vec<u32>,
    /// The ids of the entries that some step touches, ascending: there, states may differ.
    pub touched: Vec<u32>,
}

impl KeptIds {
    /// The ids of the order of paths that `places` gives: the places of entries by their paths.
    /// `marks` has, for each entry by its place, whether some step touches it.
    pub fn of(
        alloc: Global,
        tables: &Tables,
        marks: &[bool],
        places: &[u32],
    ) -> Result<KeptIds, AllocError>
        requires shared { AreForOrders tables.now marks.now }
        requires places { ArePlaces (length tables.now.entries.items) places.now }
        ensures { IfOk result (AreIds tables.now places.now) }
    {
        let slots = slots_by_path(alloc, places, &tables.slots)?;
        let marks = marks_by_path(alloc, places, marks)?;
        let kept = kept_of(alloc, &marks, &slots)?;
        let kept_below = kept_below(alloc, &marks, &slots)?;
        let touched = marked_ids(alloc, &marks)?;
        Ok(KeptIds {
            kept,
            kept_below,
            touched,
        })
    }
}
