//! What a version and the clunk of a fid that isn't open change and reply (version(5), clunk(5)).
ghost use Rattle.std.specs.Option.{ForSome};
ghost use Rattle.std.specs.Prelude.{◌≡◌};
ghost use Rattle.cs_permit.specs.Refusals.{first_failing};
ghost use Rattle.cs_session.specs.Ready.{IsAgreed};
ghost use Rattle.cs_session.specs.Sizes.{IsPlain};
ghost use Rattle.cs_session.specs.TableSteps.{clunk_left, clunk_reply, clunk_rules};
ghost use Rattle.cs_session.specs.Versions.{before_period, is_spoken, session_size, version_reply};

use crate::reply::Reply;
use cs_fids::{FidFault, FidTable};
use cs_names::limits::{LEAST_MESSAGE_SIZE, MESSAGE_BYTES};
use cs_names::{Pieces, RuleId};

/// The text before its first period; all of it if it has none. There is always a first piece, so
/// the default is never used.
fn before_period(text: &[u8]) -> &[u8]
    ensures { result.now ≡ before_period text.now }
{
    // every text has a first piece, which may be empty
    Pieces::of(text, b'.').next().unwrap_or(b"".as_slice())
}

/// Whether the text before its first period is `9P2000`, the version that this server speaks and
/// that `version_text` of `receiving` names.
fn is_spoken(text: &[u8]) -> bool
    ensures { result ≡ is_spoken text.now }
{
    before_period(text) == b"9P2000".as_slice()
}

/// The reply to a version: the smaller of the client's and the server's message size, and whether
/// the version is spoken. S4 if the client's size is too small for a session. `session_size` has
/// the same two conditions and the same size: change both.
pub(crate) fn version_reply(msize: u32, version: &str) -> Reply
    ensures value { result ≡ version_reply msize version.now }
    ensures plain { IsPlain result }
{
    if msize < LEAST_MESSAGE_SIZE {
        return Reply::Error(RuleId::S4);
    }
    Reply::Version {
        msize: msize.min(MESSAGE_BYTES),
        is_spoken: is_spoken(version.as_bytes()),
    }
}

/// The message size of the session that a version begins, as `version_reply` names it; None if it
/// begins none, because the client's size is too small or the version isn't spoken.
pub(crate) fn session_size(msize: u32, version: &str) -> Option<u32>
    ensures value { result ≡ session_size msize version.now }
    ensures agreed { ForSome result IsAgreed }
{
    if msize < LEAST_MESSAGE_SIZE || !is_spoken(version.as_bytes()) {
        return None;
    }
    Some(msize.min(MESSAGE_BYTES))
}

/// Frees the fid of that number if it isn't open, and replies Clunk. S5 if the fid is open, N1 if
/// there is no such fid; then no fid changes.
pub(crate) fn clunk_walked(fids: &mut FidTable, fid: u32) -> Reply
    ensures value { result ≡ clunk_reply (first_failing (clunk_rules fids.old.fids fid)) }
    ensures plain { IsPlain result }
    ensures left { fids.new.fids
        ≡ clunk_left fids.old.fids fid (first_failing (clunk_rules fids.old.fids fid)) }
{
    match fids.take_walked(fid) {
        Ok(_walked) => Reply::Clunk,
        Err(FidFault::AlreadyOpen) => Reply::Error(RuleId::S5),
        Err(FidFault::Unknown) => Reply::Error(RuleId::N1),
        // `take_walked` has only these two faults
        Err(_) => unreachable!(),
    }
}
