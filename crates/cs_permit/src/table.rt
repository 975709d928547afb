//! The first rule of a connection that a request on its fids fails, found without allocating. Each
//! `first_table_rule_of_` function has the rules of one kind of request, in their order, and
//! returns None if all of them pass. What a rule says is the text of its `RuleId`.
ghost use Rattle.std.specs.Prelude.{◌≡◌, ◌∷◌, []};
ghost use Rattle.cs_permit.specs.Refusals.{first_failing};
ghost use Rattle.cs_permit.specs.Table.{attach_table_rules, create_table_rules, first_table_rule};
ghost use Rattle.cs_permit.specs.Table.{is_full, is_open, is_unknown, may_be_read, may_be_written};
ghost use Rattle.cs_permit.specs.Table.{open_mode, open_table_rules, read_table_rules};
ghost use Rattle.cs_permit.specs.Table.{walk_table_rules, write_table_rules};

use crate::mode::{are_bad_permissions, covers_read, covers_write, is_bad_open_mode};
use crate::request::Request;
use crate::tree_name::TreeName;
use cs_fids::{FidEntry, FidTable, NOFID};
use cs_names::limits::FIDS;
use cs_names::{Name, RuleId};

/// Whether the connection has no such fid.
fn is_unknown(fids: &FidTable, fid: u32) -> bool
    ensures { result ≡ is_unknown fids.now.fids fid }
{
    fids.entry_of(fid).is_none()
}

/// The mode in which the fid is open; None if it isn't open or there is no such fid.
fn open_mode(fids: &FidTable, fid: u32) -> Option<u8>
    ensures { result ≡ open_mode fids.now.fids fid }
{
    match fids.entry_of(fid) {
        Some(FidEntry::Opened(opened)) => Some(opened.mode()),
        Some(FidEntry::Walked(_)) => None,
        None => None,
    }
}

/// Whether the fid is open; false if there is no such fid.
fn is_fid_open(fids: &FidTable, fid: u32) -> bool
    ensures { result ≡ is_open fids.now.fids fid }
{
    open_mode(fids, fid).is_some()
}

/// Whether the connection has FIDS fids, the most that it may have.
fn is_full(fids: &FidTable) -> bool
    ensures { result ≡ is_full fids.now.fids }
{
    fids.len() >= FIDS
}

/// The first of A1 to A3 that fails; None if none does. The fid must be new, and afid NOFID, since
/// the server has no authentication (attach(5)).
fn first_table_rule_of_attach(fids: &FidTable, fid: u32, afid: u32, aname: &str) -> Option<RuleId>
    ensures { result ≡ first_failing (attach_table_rules fids.now.fids fid afid aname.now) }
{
    if !is_unknown(fids, fid) || fid == NOFID || is_full(fids) {
        return Some(RuleId::A1);
    }
    if afid != NOFID {
        return Some(RuleId::A2);
    }
    if TreeName::read(aname.as_bytes()).is_none() {
        return Some(RuleId::A3);
    }
    None
}

/// The first of K1 to K4 that fails; None if none does. `newfid` may be `fid` itself, which needs
/// no room (walk(5)).
fn first_table_rule_of_walk(fids: &FidTable, fid: u32, newfid: u32) -> Option<RuleId>
    ensures { result ≡ first_failing (walk_table_rules fids.now.fids fid newfid) }
{
    if is_unknown(fids, fid) {
        return Some(RuleId::K1);
    }
    if is_fid_open(fids, fid) {
        return Some(RuleId::K2);
    }
    if newfid == NOFID || (!is_unknown(fids, newfid) && newfid != fid) {
        return Some(RuleId::K3);
    }
    if newfid != fid && is_full(fids) {
        return Some(RuleId::K4);
    }
    None
}

/// The first of O1 to O3 that fails; None if none does. Whether the user has the rights is asked by
/// the run.
fn first_table_rule_of_open(fids: &FidTable, fid: u32, mode: u8) -> Option<RuleId>
    ensures { result ≡ first_failing (open_table_rules fids.now.fids fid mode) }
{
    if is_unknown(fids, fid) {
        return Some(RuleId::O1);
    }
    if is_fid_open(fids, fid) {
        return Some(RuleId::O2);
    }
    if is_bad_open_mode(mode) {
        return Some(RuleId::O3);
    }
    None
}

/// The first of C1 to C5 that fails; None if none does. Whether the fid's file is a directory is
/// asked by the run.
fn first_table_rule_of_create(
    fids: &FidTable,
    fid: u32,
    name: &str,
    perm: u32,
    mode: u8,
) -> Option<RuleId>
    ensures { result ≡ first_failing (create_table_rules fids.now.fids fid name.now perm mode) }
{
    if is_unknown(fids, fid) {
        return Some(RuleId::C1);
    }
    if is_fid_open(fids, fid) {
        return Some(RuleId::C2);
    }
    if is_bad_open_mode(mode) {
        return Some(RuleId::C3);
    }
    if Name::check(name.as_bytes()).is_err() {
        return Some(RuleId::C4);
    }
    if are_bad_permissions(perm, mode) {
        return Some(RuleId::C5);
    }
    None
}

/// Whether the fid is open in a mode that allows reads; false if it isn't open.
fn may_be_read(fids: &FidTable, fid: u32) -> bool
    ensures { result ≡ may_be_read fids.now.fids fid }
{
    match open_mode(fids, fid) {
        Some(mode) => covers_read(mode),
        None => false,
    }
}

/// The first of G1 and G2 that fails; None if neither does.
fn first_table_rule_of_read(fids: &FidTable, fid: u32) -> Option<RuleId>
    ensures { result ≡ first_failing (read_table_rules fids.now.fids fid) }
{
    if is_unknown(fids, fid) {
        return Some(RuleId::G1);
    }
    if !may_be_read(fids, fid) {
        return Some(RuleId::G2);
    }
    None
}

/// Whether the fid is open in a mode that allows writes; false if it isn't open.
fn may_be_written(fids: &FidTable, fid: u32) -> bool
    ensures { result ≡ may_be_written fids.now.fids fid }
{
    match open_mode(fids, fid) {
        Some(mode) => covers_write(mode),
        None => false,
    }
}

/// The first of E1 and E2 that fails; None if neither does.
fn first_table_rule_of_write(fids: &FidTable, fid: u32) -> Option<RuleId>
    ensures { result ≡ first_failing (write_table_rules fids.now.fids fid) }
{
    if is_unknown(fids, fid) {
        return Some(RuleId::E1);
    }
    if !may_be_written(fids, fid) {
        return Some(RuleId::E2);
    }
    None
}

/// The given rule if the connection has no such fid, else None: for requests that have no other
/// rule of the connection.
fn rule_if_unknown(fids: &FidTable, fid: u32, rule: RuleId) -> Option<RuleId>
    ensures { result ≡ first_failing ((rule, is_unknown fids.now.fids fid) ∷ []) }
{
    if is_unknown(fids, fid) {
        return Some(rule);
    }
    None
}

/// The first rule of the connection that the request fails, in the order of the server's page; None
/// if all pass. It asks no run and allocates nothing.
#[tactic(auto, unfolding(crate::specs::Table::first_table_rule))]
pub fn first_table_rule(request: &Request, fids: &FidTable) -> Option<RuleId>
    ensures { result ≡ first_table_rule fids.now.fids request.now }
{
    match *request {
        Request::Attach { fid, afid, aname } => first_table_rule_of_attach(fids, fid, afid, aname),
        Request::Walk { fid, newfid } => first_table_rule_of_walk(fids, fid, newfid),
        Request::Open { fid, mode } => first_table_rule_of_open(fids, fid, mode),
        Request::Create {
            fid,
            name,
            perm,
            mode,
        } => first_table_rule_of_create(fids, fid, name, perm, mode),
        Request::Read { fid } => first_table_rule_of_read(fids, fid),
        Request::Write { fid } => first_table_rule_of_write(fids, fid),
        Request::Clunk { fid } => rule_if_unknown(fids, fid, RuleId::N1),
        Request::Remove { fid } => rule_if_unknown(fids, fid, RuleId::M1),
        Request::Stat { fid } => rule_if_unknown(fids, fid, RuleId::H1),
        Request::Wstat { fid } => rule_if_unknown(fids, fid, RuleId::Q1),
    }
}
