//! How a call ends, and the answer to its client.
ghost use Rattle.std.specs.Prelude.{◌≡◌};

use cs_fids::Place;
use cs_names::RuleId;
use cs_wire::{Qid, Stat};
use std::marker::Model;

/// How far a walk got. Contracts see the qids of the names that passed, the rule that stopped the
/// next name, if any, and the number of the last file: the one from which the walk starts if no
/// name passed.
#[derive(Debug, Drop)]
pub struct Walk {
    /// Of the names that passed, in order.
    qids: Vec<Qid>,
    /// None if all names passed.
    stopped: Option<RuleId>,
    /// The number of the file at which the walk ended.
    last: u64,
}

impl Model for Walk {
    ghost use Rattle.cs_permit.specs.Sizes.{IsQid};
    ghost use Rattle.cs_run.specs.Walks.{WalkResult};
    ghost use Rattle.std.specs.List.{AllByRecursion};

    ghost Value = { WalkResult };

    ghost view = { λ w. record { qids = w.qids.items; stopped = w.stopped; last = w.last } };

    ghost invariant = { λ w. AllByRecursion IsQid w.qids.items };
}

impl Walk {
    ghost use Rattle.cs_run.specs.Walks.{stopped_first};
    ghost use Rattle.cs_permit.specs.Sizes.{IsQid};
    ghost use Rattle.std.specs.List.{AllByRecursion};

    /// A walk that ended at the file of number `last`. `qids` are those of the names that passed;
    /// `stopped` is the rule that stopped the next name, or None if all names passed. The numbers
    /// of the qids must be in their ranges.
    pub(crate) fn new(qids: Vec<Qid>, stopped: Option<RuleId>, last: u64) -> Walk
        requires { AllByRecursion IsQid qids.items }
        ensures { result ≡ record { qids = qids.items; stopped = stopped; last = last } }
    {
        Walk {
            qids,
            stopped,
            last,
        }
    }

    /// The qids of the names that passed, in order; empty if none did. For tests: the commands call
    /// `into_qids`.
    pub fn qids(&self) -> &[Qid]
        ensures { result.now ≡ self.now.qids }
    {
        self.qids.as_slice()
    }

    /// The qids of the names that passed, in order, owned; empty if none did. Each fits into a
    /// reply.
    pub fn into_qids(self) -> Vec<Qid>
        ensures value { result.items ≡ self.qids }
        ensures fit { AllByRecursion IsQid result.items }
    {
        self.qids
    }

    /// The rule that stopped the walk at the next name; None if all names passed.
    pub fn stopped(&self) -> Option<RuleId>
        ensures { result ≡ self.now.stopped }
    {
        self.stopped
    }

    /// The rule that stopped the walk at its first name; None if that passed or there are no names.
    pub(crate) fn stopped_first(&self) -> Option<RuleId>
        ensures { result ≡ stopped_first self.now }
    {
        if self.qids.is_empty() {
            self.stopped
        } else {
            None
        }
    }

    /// The number of the file at which the walk ended.
    pub fn last(&self) -> u64
        ensures { result ≡ self.now.last }
    {
        self.last
    }
}

/// What a read returns: bytes, and the place in a directory from which the fid's next read
/// continues (None if the place hasn't moved).
#[derive(Debug, Drop)]
pub struct Data {
    /// Of a file, or of whole entries of a directory.
    bytes: Vec<u8>,
    /// None for a file that is no directory, and if no entry was read.
    place: Option<Place>,
}

impl Model for Data {
    ghost use Rattle.cs_run.specs.Pages.{DataRead};

    ghost Value = { DataRead };

    ghost view = { λ d. record { bytes = d.bytes.items; place = d.place } };
}

impl Data {
    /// What a read that found these bytes returns. `place` is None for a file that is no directory,
    /// and if no entry was read.
    pub(crate) fn new(bytes: Vec<u8>, place: Option<Place>) -> Data
        ensures { result ≡ record { bytes = bytes.items; place = place } }
    {
        Data { bytes, place }
    }

    /// The bytes that the read returns; empty if there was nothing to read.
    pub fn bytes(&self) -> &[u8]
        ensures { result.now ≡ self.now.bytes }
    {
        self.bytes.as_slice()
    }

    /// The bytes that the read returns, and the place from which the fid's next read continues;
    /// None if the place hasn't moved.
    pub fn into_parts(self) -> (Vec<u8>, Option<Place>)
        ensures bytes { result.0.items ≡ self.bytes }
        ensures place { result.1 ≡ self.place }
    {
        (self.bytes, self.place)
    }
}

/// A file's stat, of at most 600 bytes, so that it fits into a reply. Contracts see its fields
/// (stat(5)).
// 600 is cs_permit's `STAT_BYTES`: its contracts bound each file's stat by it. If that constant
// grows, `act_stat` no longer meets the `requires` of `new`, until each 600 here grows too
#[derive(Debug, Drop)]
pub struct FileStat {
    /// At most 600 bytes on the wire.
    stat: Stat,
}

impl Model for FileStat {
    ghost use Rattle.cs_run.specs.Stats.{StatFields};
    ghost use Rattle.cs_permit.specs.Sizes.{IsStat};
    ghost use Rattle.cs_wire.specs.Messages.{stat_of};

    ghost Value = { StatFields };

    ghost view = { λ s. stat_of s.stat };

    ghost invariant = { λ s. IsStat 600 (stat_of s.stat) };
}

impl FileStat {
    ghost use Rattle.cs_permit.specs.Sizes.{IsStat};
    ghost use Rattle.cs_wire.specs.Messages.{stat_of};

    /// Wraps a stat of at most 600 bytes, as every stat of cs_permit's `stat_ref` is.
    pub(crate) fn new(stat: Stat) -> FileStat
        requires { IsStat 600 (stat_of stat) }
        ensures { result ≡ stat_of stat }
    {
        FileStat { stat }
    }

    /// The stat itself, which fits into a reply.
    pub fn into_stat(self) -> Stat
        ensures value { stat_of result ≡ self }
        ensures fits { IsStat 600 (stat_of result) }
    {
        self.stat
    }
}

/// How a call ends.
#[derive(Clone, Copy, Debug, PartialEq, Eq)]
pub enum Outcome {
    /// The call has its effect.
    Granted,
    /// This rule is the first that fails.
    Denied(RuleId),
    /// No rule fails, but memory ran out.
    Short,
}

/// The answer to a call.
#[derive(Debug, Drop)]
pub enum Answer {
    /// The qid of the root.
    Attached(Qid),
    /// The answer to a walk of which the first name, if any, passed.
    Walked(Walk),
    /// The answer to an open or a create: the qid and the number of the file, and the number of the
    /// open.
    Opened {
        qid: Qid,
        open_number: u32,
        number: u64,
    },
    /// The answer to a read.
    Data(Data),
    /// How many bytes were written.
    Written(u32),
    /// The answer to a close, even if there is no such open.
    Closed,
    /// The answer to a remove.
    Removed,
    /// The answer to a stat.
    Stat(FileStat),
    /// The answer to a wstat, even if it changes no field.
    Changed,
    /// The first rule that fails.
    Denied(RuleId),
    /// Out of memory.
    Short,
}
