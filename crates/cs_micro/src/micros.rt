//! A trace that is broken into micro-operations: the lists, and how they are made.
ghost use Rattle.std.specs.Prelude.{◌≡◌, ◌<◌, ◌≤◌, ◌↔◌, length, map, IfOk, IsErrOf};
ghost use Rattle.cs_micro.specs.MicroOperations.{micro_operations_of};
ghost use Rattle.cs_micro.specs.Micros.{AreLegalFromStart, HoldsAny, micros_in};

use crate::breaking::micros_and_syncs;
use crate::counting::has_room;
use crate::fault::MicroFault;
use crate::micro_op::MicroOp;
use crate::starts::paths_of_files;
use crate::sync_point::SyncPoint;
use cs_names::Path;
use cs_names::laws::know;
use cs_names::limits::MICRO_OPERATIONS;
use cs_trace::{Trace, Version};
use std::alloc::Global;
use std::marker::Model;

/// The micro-operations of a trace, MICRO_OPERATIONS at most, with its sync points, the paths of
/// the files at its start, and its version. Contracts see the three lists and the version.
#[derive(Debug, Drop)]
pub struct Micros {
    /// The micro-operations, in the trace's order. Their places are their indices.
    ops: Vec<MicroOp>,
    /// The sync points, in the trace's order.
    syncs: Vec<SyncPoint>,
    /// The paths of each file and symbolic link at the start, by its number.
    starts: Vec<Vec<Path>>,
    /// The trace's version.
    version: Version,
}

impl Model for Micros {
    ghost use Rattle.std.specs.Prelude.{◌≤◌, length, map};
    ghost use Rattle.cs_names.specs.declared.limits.TheConstants.{MICRO_OPERATIONS};
    ghost use Rattle.cs_micro.specs.Micros.{Micros};

    ghost Value = { Micros };

    ghost view = { λ micros. record {
      ops = micros.ops.items;
      syncs = micros.syncs.items;
      starts = map (λ paths. paths.items) micros.starts.items;
      version = micros.version;
    } };

    ghost invariant = { λ micros. length micros.ops.items ≤ MICRO_OPERATIONS };
}

impl Micros {
    /// The micro-operations in the trace's order. The place of one is its index.
    pub fn ops(&self) -> &[MicroOp]
        ensures value { result.now ≡ self.now.ops }
        ensures few { length result.now ≤ MICRO_OPERATIONS }
    {
        self.ops.as_slice()
    }

    /// The sync points in the trace's order. Several may have the same place.
    pub fn syncs(&self) -> &[SyncPoint]
        ensures { result.now ≡ self.now.syncs }
    {
        self.syncs.as_slice()
    }

    /// The paths of each file and symbolic link at the start, in the order of their numbers: first
    /// the path that its start line gives, and then those of the start lines that link it.
    pub fn starts(&self) -> &[Vec<Path>]
        ensures { map (λ paths. paths.items) result.now ≡ self.now.starts }
    {
        self.starts.as_slice()
    }

    /// The trace's version, with the size of a block and the profile.
    pub fn version(&self) -> Version
        ensures { result ≡ self.now.version }
    {
        self.version
    }
}

/// Breaks the trace's operations into micro-operations, and collects its sync points. TooMany
/// exactly if there are more than MICRO_OPERATIONS micro-operations. Memory only if there is at
/// least one micro-operation, sync point or file at the start.
pub fn break_up(alloc: Global, trace: &Trace) -> Result<Micros, MicroFault>
    ensures value { IfOk result (λ micros. micros ≡ micros_in trace.now) }
    ensures many { IsErrOf result MicroFault.TooMany
        ↔ (MICRO_OPERATIONS
        < length (micro_operations_of trace.now.version trace.now.operations)) }
    ensures legal { IfOk result (λ micros. AreLegalFromStart trace.now micros) }
    ensures memory { IsErrOf result MicroFault.Memory → HoldsAny (micros_in trace.now) }
{
    let version = trace.version();
    let operations = trace.operations();
    // By the contract of `file_count`, no file at the start is too large.
    know(trace.file_count());
    if !has_room(version, operations) {
        return Err(MicroFault::TooMany);
    }
    let (ops, syncs) = micros_and_syncs(alloc, version, operations)?;
    let starts = paths_of_files(alloc, trace)?;
    Ok(Micros {
        ops,
        syncs,
        starts,
        version,
    })
}
