//! Whether two calls are the same except for the bytes that they write.
ghost use Rattle.std.specs.Prelude.{◌≡◌, ◌↔◌, IsTrue, map, option_map, string_bytes};
ghost use Rattle.cs_journal.specs.Summaries.{call_in, without_bytes};
ghost use Rattle.cs_permit.specs.Sent.{sent_of};

use cs_names::Name;
use cs_permit::Call;
use cs_wire::Stat;

/// A call without the bytes that it writes, borrowed from an entry or a receipt, so that two can be
/// compared. `number` below is the number of a file.
#[derive(Clone, Copy)]
pub(crate) enum CallSummary<'a> {
    /// The user.
    Attach(&'a [u8]),
    /// The number, the user, and the names.
    Walk(u64, &'a [u8], &'a [String]),
    /// The number, the user, and the mode.
    Open(u64, &'a [u8], u8),
    /// The directory's number, the user, the new name, its permissions, and the mode.
    Create(u64, &'a [u8], &'a Name, u32, u8),
    /// The number, the offset, the count, and the place in a directory: its end, and the name of
    /// the last entry that was read.
    Read(u64, u64, u32, u64, Option<&'a Name>),
    /// The number, the user, and the offset.
    Write(u64, &'a [u8], u64),
    /// The open's number, and the user.
    Close(u32, &'a [u8]),
    /// The number, the user, and the number of the open that it ends.
    Remove(u64, &'a [u8], Option<u32>),
    /// The number.
    Stat(u64),
    /// The number, the user, and the stat that was sent.
    Wstat(u64, &'a [u8], &'a Stat),
}

/// The call's fields, borrowed, without the bytes that it writes. (`KeptCall::summary` returns
/// those of a kept call.)
pub(crate) fn summary_of<'a>(call: &'a Call<'_>) -> CallSummary<'a>
    ensures { call_in result ≡ without_bytes call.now }
{
    match call {
        Call::Attach(call) => CallSummary::Attach(call.user.as_str().as_bytes()),
        Call::Walk(call) => {
            CallSummary::Walk(call.number, call.user.as_bytes(), call.names.as_slice())
        }
        Call::Open(call) => CallSummary::Open(call.number, call.user.as_bytes(), call.mode),
        Call::Create(call) => CallSummary::Create(
            call.number,
            call.user.as_bytes(),
            &call.name,
            call.perm,
            call.mode,
        ),
        Call::Read(call) => CallSummary::Read(
            call.number,
            call.offset,
            call.count,
            call.place.end,
            call.place.last.as_ref(),
        ),
        Call::Write(call) => CallSummary::Write(call.number, call.user.as_bytes(), call.offset),
        Call::Close(call) => CallSummary::Close(call.open_number, call.user.as_bytes()),
        Call::Remove(call) => {
            CallSummary::Remove(call.number, call.user.as_bytes(), call.open_number)
        }
        Call::Stat(call) => CallSummary::Stat(call.number),
        Call::Wstat(call) => CallSummary::Wstat(
            call.number,
            call.user.as_bytes(),
            call.stat.as_stat(),
        ),
    }
}

/// Whether both lists have the same texts in the same order.
fn are_same_texts(texts: &[String], others: &[String]) -> bool
    ensures { IsTrue result ↔ (map string_bytes texts.now ≡ map string_bytes others.now) }
{
    texts == others
}

/// Whether all fields of two stats are the same.
fn is_same_stat(stat: &Stat, other: &Stat) -> bool
    ensures { IsTrue result ↔ (sent_of stat.now ≡ sent_of other.now) }
{
    stat.kind == other.kind
        && stat.dev == other.dev
        && stat.qid == other.qid
        && stat.mode == other.mode
        && stat.atime == other.atime
        && stat.mtime == other.mtime
        && stat.length == other.length
        && stat.name == other.name
        && stat.uid == other.uid
        && stat.gid == other.gid
        && stat.muid == other.muid
}

/// Whether two reads of directories continue after the same name. True also if both begin with the
/// first entry (None).
fn is_same_last(name: Option<&Name>, other: Option<&Name>) -> bool
    ensures { IsTrue result ↔ (option_map (λ n. n.now) name.entry
        ≡ option_map (λ n. n.now) other.entry) }
{
    match (name, other) {
        (Some(name), Some(other)) => name == other,
        (None, None) => true,
        // only one has a name
        _ => false,
    }
}

/// Whether both are the same call: of the same kind, with the same fields. The bytes of writes
/// aren't among them.
pub(crate) fn are_same(call: CallSummary, other: CallSummary) -> bool
    ensures { IsTrue result ↔ (call_in call.entry ≡ call_in other.entry) }
{
    match (call, other) {
        (CallSummary::Attach(user), CallSummary::Attach(user2)) => user == user2,
        (CallSummary::Walk(number, user, names), CallSummary::Walk(number2, user2, names2)) => {
            number == number2 && user == user2 && are_same_texts(names, names2)
        }
        (CallSummary::Open(number, user, mode), CallSummary::Open(number2, user2, mode2)) => {
            number == number2 && user == user2 && mode == mode2
        }
        (
            CallSummary::Create(number, user, name, perm, mode),
            CallSummary::Create(number2, user2, name2, perm2, mode2),
        ) => {
            number == number2 && user == user2 && name == name2 && perm == perm2 && mode == mode2
        }
        (
            CallSummary::Read(number, offset, count, end, last),
            CallSummary::Read(number2, offset2, count2, end2, last2),
        ) => {
            number == number2
                && offset == offset2
                && count == count2
                && end == end2
                && is_same_last(last, last2)
        }
        (CallSummary::Write(number, user, offset), CallSummary::Write(number2, user2, offset2)) => {
            number == number2 && user == user2 && offset == offset2
        }
        (CallSummary::Close(number, user), CallSummary::Close(number2, user2)) => {
            number == number2 && user == user2
        }
        (CallSummary::Remove(number, user, open), CallSummary::Remove(number2, user2, open2)) => {
            number == number2 && user == user2 && open == open2
        }
        (CallSummary::Stat(number), CallSummary::Stat(number2)) => number == number2,
        (CallSummary::Wstat(number, user, stat), CallSummary::Wstat(number2, user2, stat2)) => {
            number == number2 && user == user2 && is_same_stat(stat, stat2)
        }
        // calls of two kinds
        _ => false,
    }
}
