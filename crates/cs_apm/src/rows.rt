//! What each micro-operation needs, as rows of bits. `i` and `j` are places in the trace, `i` that
//! of the earlier micro-operation.
ghost use Rattle.std.specs.Prelude.{◌≡◌, ℕ, ◌<◌, ◌≤◌, length, IfOk};
ghost use Rattle.cs_apm.specs.Finding.{AreLogged, AreSynced, is_parent_making};
ghost use Rattle.cs_apm.specs.Rows.{AreRows, IsRow};
ghost use Rattle.cs_apm.specs.Rules as rules;

use crate::found::{ParentMakings, first_syncs, is_by};
use crate::logs::first_logs;
use crate::rules::{is_first_half, op_at, pair_needs};
use cs_micro::{MicroOp, SyncPoint};
use cs_names::limits::MICRO_OPERATIONS;
use cs_sets::Row;
use cs_trace::{Profile, Version};
use std::alloc::{AllocError, Global};

/// Whether a sync point after micro-operation `i` and before `j` covers `i` (P5). `found` is what
/// `first_syncs` returned for `_ops` and `_syncs`, which are for the contract only.
fn is_synced(
    _ops: &[MicroOp],
    _syncs: &[SyncPoint],
    found: &[Option<usize>],
    i: usize,
    j: usize,
) -> bool
    requires inside { i < length _ops.now }
    requires found { AreSynced _ops.now _syncs.now (length _ops.now) found.now }
    ensures { result ≡ rules.is_synced _syncs.now i j (rules.op_at _ops.now i) }
{
    is_by(found[i], j)
}

/// Whether micro-operation `i` touches an entry, and a sync point between `i` and `j` writes the
/// log of a file system with a journal (P11). False for the other profiles. `found` is what
/// `first_logs` returned for `_ops`, `_syncs` and `_profile`, which are for the contract only.
fn is_journaled(
    _ops: &[MicroOp],
    _syncs: &[SyncPoint],
    _profile: Profile,
    found: &[Option<usize>],
    i: usize,
    j: usize,
) -> bool
    requires inside { i < length _ops.now }
    requires found { AreLogged _ops.now _syncs.now _profile (length _ops.now) found.now }
    ensures { result ≡ rules.is_journaled _profile _ops.now _syncs.now i j }
{
    is_by(found[i], j)
}

/// Whether `i` and `j` are the halves of one rename (P13): `i` the first, and `j` the next
/// micro-operation.
fn are_halves(ops: &[MicroOp], i: usize, j: usize) -> bool
    requires { i < length ops.now }
    ensures { result ≡ rules.are_halves ops.now i j }
{
    is_first_half(op_at(ops, i)) && j == i + 1
}

/// What is found once for all pairs of micro-operations, so that no pair needs a search.
#[derive(Debug, Drop)]
struct Found {
    /// For each micro-operation, the place of the first sync point that covers it: see
    /// `first_syncs`.
    syncs: Vec<Option<usize>>,
    /// For each micro-operation, the first place after it at which a journal is written: see
    /// `first_logs`.
    logs: Vec<Option<usize>>,
}

/// Whether micro-operation `j` needs `i`, which is before it, by one of the rules P1 to P13; not by
/// a chain of others. `found` is of these micro-operations, sync points and profile, and `parents`
/// of `j`.
#[tactic(auto, unfolding(crate::specs::Rules::needs))]
fn needs_earlier(
    ops: &[MicroOp],
    syncs: &[SyncPoint],
    version: Version,
    profile: Profile,
    found: &Found,
    parents: ParentMakings,
    i: usize,
    j: usize,
) -> bool
    requires order { i < j }
    requires inside { j < length ops.now }
    requires synced { AreSynced ops.now syncs.now (length ops.now) found.now.syncs.items }
    requires logged { AreLogged ops.now syncs.now profile (length ops.now) found.now.logs.items }
    requires parents { (i : ℕ) → i < j
        → is_parent_making parents i ≡ rules.makes_parent ops.now i j }
    ensures { result ≡ rules.needs ops.now syncs.now version profile i j }
{
    pair_needs(version, profile, op_at(ops, i), op_at(ops, j))
        || parents.has_making_at(i)
        || is_synced(ops, syncs, &found.syncs, i, j)
        || is_journaled(ops, syncs, profile, &found.logs, i, j)
        || are_halves(ops, i, j)
}

/// The places of what micro-operation `j` needs by one of the rules, as a row; all are before `j`.
/// `found` is of these micro-operations, sync points and profile.
fn row_of(
    ops: &[MicroOp],
    syncs: &[SyncPoint],
    version: Version,
    profile: Profile,
    found: &Found,
    j: usize,
) -> Row
    requires inside { j < length ops.now }
    requires few { length ops.now ≤ MICRO_OPERATIONS }
    requires synced { AreSynced ops.now syncs.now (length ops.now) found.now.syncs.items }
    requires logged { AreLogged ops.now syncs.now profile (length ops.now) found.now.logs.items }
    ensures { IsRow (rules.needs ops.now syncs.now version profile) j result }
{
    let parents = ParentMakings::of(ops, j);
    let mut row = Row::empty();
    for i in 0..j {
        if needs_earlier(ops, syncs, version, profile, found, parents, i, j) {
            row.set(i);
        }
    }
    row
}

/// For each micro-operation, a row of what it needs by the rules of the version, on a file system
/// of the profile; not of what it needs only by a chain. There may be at most MICRO_OPERATIONS of
/// them, as many as a row has bits.
pub fn rows_of(
    alloc: Global,
    ops: &[MicroOp],
    syncs: &[SyncPoint],
    version: Version,
    profile: Profile,
) -> Result<Vec<Row>, AllocError>
    requires { length ops.now ≤ MICRO_OPERATIONS }
    ensures { IfOk result (λ rows.
        AreRows (rules.needs ops.now syncs.now version profile) (length ops.now) rows.items) }
{
    let found = Found {
        syncs: first_syncs(alloc, ops, syncs)?,
        logs: first_logs(alloc, ops, syncs, profile)?,
    };
    let mut rows = Vec::new(alloc);
    for j in 0..ops.len() {
        let row = row_of(ops, syncs, version, profile, &found, j);
        rows.push(row)?;
    }
    Ok(rows)
}
