//! What is computed once from a trace, for the states of all its sets. The specs call it an atlas.
ghost use Rattle.std.specs.Prelude.{◌≡◌, IfOk};
ghost use Rattle.cs_micro.specs.Micros.{AreLegalFromStart, micros_in};

use crate::flags::changed_by;
use crate::held::held_entries;
use crate::makings::makings_of;
use crate::places::lists_of;
use crate::rights::{directories_of, owners_of};
use crate::slot::Step;
use crate::start::{count_directories, directory_places, starts_of};
use crate::steps::steps_of;
use cs_entries::{Entry, Node};
use cs_micro::Micros;
use cs_names::laws::know;
use cs_trace::{Rights, Trace};
use std::alloc::{AllocError, Global};

/// What is computed once from a trace and its micro-operations. Nothing changes it afterwards. The
/// fields are consistent only as `Tables::of` returns them: functions that take tables ask in
/// `requires` that they are of the same trace.
#[derive(Debug, Drop)]
pub struct Tables {
    /// Every entry that the start has or a micro-operation touches, in ascending order: by the
    /// number of the directory, then by name.
    pub entries: Vec<Entry>,
    /// What each entry of `entries` holds at the start; None if it holds nothing.
    pub slots: Vec<Option<Node>>,
    /// What each micro-operation does to the slots.
    pub steps: Vec<Step>,
    /// Owner, group and permissions of the files and symbolic links as they are made, by their
    /// numbers.
    pub owners: Vec<Rights>,
    /// Owner, group and permissions of the directories as they are made: those at the start by
    /// their numbers, then one for each making. See `directories_of`.
    pub directories: Vec<Rights>,
    /// For each file and symbolic link at the start, by its number, the place of its record among
    /// the trace's; of one of its records, if it has several.
    pub starts: Vec<u32>,
    /// For each file and symbolic link that isn't there at the start, in the order of the numbers,
    /// the place of the micro-operation that makes it.
    pub makings: Vec<u32>,
    /// For each file and symbolic link, by its number, whether some micro-operation changes its
    /// size or bytes.
    pub changed: Vec<bool>,
}

impl Tables {
    ghost use Rattle.cs_apm.specs.Atlases.{IsAtlas, atlas_in};

    /// Computes the tables of a trace. The micro-operations must be those that `break_up` returns
    /// for it. The only error is that memory ran out; nothing is left then.
    pub fn of(alloc: Global, trace: &Trace, micros: &Micros) -> Result<Tables, AllocError>
        requires broken { micros.now ≡ micros_in trace.now }
        requires legal { AreLegalFromStart trace.now micros.now }
        ensures { IfOk result (λ tables. IsAtlas trace.now micros.now (atlas_in tables)) }
    {
        let records = trace.records();
        let nodes = trace.nodes();
        let ops = micros.ops();
        // By the contract of `operations`, the entries at the start are a tree.
        know(trace.operations());
        let held = held_entries(alloc, records, nodes, ops)?;
        let (entries, slots) = lists_of(alloc, held)?;
        let steps = steps_of(alloc, &entries, ops)?;
        let starts = starts_of(alloc, nodes, trace.file_count())?;
        let owners = owners_of(alloc, records, &starts, ops)?;
        let places = directory_places(alloc, nodes, count_directories(nodes))?;
        let directories = directories_of(alloc, records, &places, ops)?;
        let makings = makings_of(alloc, ops)?;
        let changed = changed_by(alloc, ops, owners.len())?;
        Ok(Tables {
            entries,
            slots,
            steps,
            owners,
            directories,
            starts,
            makings,
            changed,
        })
    }
}
