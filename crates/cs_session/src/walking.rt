//! Walks (walk(5)).
ghost use Rattle.std.specs.Prelude.{◌≡◌, ◌≢◌, ℕ, ◌<◌, ◌≤◌, false, length, IfErr, IfOk, IsOk, None};
ghost use Rattle.std.specs.Prelude.{Option, Some};
ghost use Rattle.std.specs.FinMap.{get};
ghost use Rattle.cs_run.specs.Laws.{FitsCall, qids_in};
ghost use Rattle.cs_session.specs.declared.message.CallMessage.TheVariants as call;
ghost use Rattle.cs_session.specs.Calls.{call_decision};
ghost use Rattle.cs_session.specs.Decisions.{Decides, question_of, walked_at};
ghost use Rattle.cs_names.specs.declared.limits.TheConstants.{WALK_NAMES};
ghost use Rattle.cs_run.specs.declared.answer.Answer.{Answer};
ghost use Rattle.cs_session.specs.Sizes.{IsPlain, ReplyFits};
ghost use Rattle.cs_session.specs.Walks.{walk_after, walk_left};

use crate::fid_changes::put_new;
use crate::message::WalkMessage;
use crate::question::{RunQuestion, first_failing_rule, refusal};
use crate::reply::Reply;
use cs_fids::{Fid, FidEntry, FidTable, NOFID, Walked};
use cs_permit::{Call, Request, WalkCall};
use cs_run::{Answer, Walk};

/// What a walk asks the run of its fid, and a copy of that fid. An error is the reply that refuses
/// it: the first of the connection's rules that fails, or out of memory. No fid changes; after `Ok`
/// the table has room for a new fid, if the walk makes one.
pub(crate) fn decide_walk(
    awaits_attach: bool,
    msize: Option<u32>,
    fids: &mut FidTable,
    now: u32,
    message: WalkMessage,
) -> Result<(RunQuestion<'static>, Fid<Walked>), Reply>
    ensures decided { Decides (λ a. question_of a.0)
        (call_decision now awaits_attach msize fids.old.fids (call.Walk message)) result }
    ensures plain { IfErr result IsPlain }
    ensures fits { IfOk result
        (λ a. (answer : Answer) → FitsCall a.0.call answer
        → qids_in answer ≤ length message.names) }
    ensures idle { IsOk result → awaits_attach ≡ false }
    ensures from { IfOk result (λ a. walked_at fids.old.fids message.fid ≡ Some a.1) }
    ensures named { IsOk result → message.newfid ≢ NOFID }
    ensures free { IsOk result → message.newfid ≢ message.fid
        → get fids.old.fids message.newfid ≡ None }
    ensures room { IsOk result → message.newfid ≢ message.fid → 0 < fids.new.room }
    ensures kept { fids.old.room ≤ fids.new.room }
    ensures fids { fids.new.fids ≡ fids.old.fids }
{
    let request = Request::Walk {
        fid: message.fid,
        newfid: message.newfid,
    };
    if let Some(rule) = first_failing_rule(awaits_attach, msize, &request, fids) {
        return Err(Reply::Error(rule));
    }
    // the rules refuse a full table, so the only error is out of memory
    if message.newfid != message.fid && fids.reserve().is_err() {
        return Err(Reply::Memory);
    }
    let Some(FidEntry::Walked(fid)) = fids.entry_of(message.fid) else {
        // the rules refuse a fid that is open or isn't there
        unreachable!()
    };
    let Ok(user) = fid.user().try_clone() else {
        return Err(Reply::Memory);
    };
    let Ok(from) = fid.try_clone() else {
        return Err(Reply::Memory);
    };
    let call = Call::Walk(WalkCall {
        number: fid.number(),
        user,
        names: message.names,
    });
    let question = RunQuestion::new(now, fid.run(), fid.pass(), call);
    Ok((question, from))
}

/// Makes `newfid` the fid of the walk's last file: it is added, or moved if it is `fid` itself, of
/// which `from` is a copy. No fid changes if a rule stopped the walk. `decide_walk` has checked the
/// two fids, and made room for a new one.
fn move_fid(fids: &mut FidTable, fid: u32, newfid: u32, from: Fid<Walked>, walk: &Walk)
    requires from { walked_at fids.old.fids fid ≡ Some from }
    requires named { newfid ≢ NOFID }
    requires free { newfid ≢ fid → get fids.old.fids newfid ≡ None }
    requires room { newfid ≢ fid → 0 < fids.old.room }
    ensures { fids.new.fids ≡ walk_left fids.old.fids newfid (Some from) walk.now }
{
    if walk.stopped().is_some() {
        return;
    }
    if newfid == fid {
        // the fid is there, and isn't open
        fids.move_to(fid, walk.last()).unwrap();
    } else {
        put_new(fids, newfid, from.moved_to(walk.last()));
    }
}

/// The reply to a walk that the run answered. The new fid is added, or moved if it is `fid` itself.
/// If the run refuses the walk or a rule stops it, no fid changes. `decide_walk` has checked the
/// two fids, and made room for a new one; `from` is its copy of `fid`.
pub(crate) fn settle_walk(
    fids: &mut FidTable,
    fid: u32,
    newfid: u32,
    from: Fid<Walked>,
    answer: Answer,
) -> Reply
    requires from { walked_at fids.old.fids fid ≡ Some from }
    requires named { newfid ≢ NOFID }
    requires free { newfid ≢ fid → get fids.old.fids newfid ≡ None }
    requires room { newfid ≢ fid → 0 < fids.old.room }
    ensures value { (result, fids.new.fids) ≡ walk_after fids.old.fids fid newfid answer }
    ensures fits { (msize : Option ℕ) (names : ℕ) → names ≤ WALK_NAMES → qids_in answer ≤ names
        → ReplyFits msize result }
{
    match answer {
        Answer::Walked(walk) => {
            move_fid(fids, fid, newfid, from, &walk);
            Reply::Walk(walk)
        }
        answer => refusal(answer),
    }
}
