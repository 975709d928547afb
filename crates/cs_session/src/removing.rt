//! Removes (remove(5)).
ghost use Rattle.std.specs.Prelude.{◌≡◌, false, IfErr, IsOk, OnErr, OnOk};
ghost use Rattle.std.specs.FinMap.{remove};
ghost use Rattle.cs_session.specs.declared.message.CallMessage.TheVariants as call;
ghost use Rattle.cs_session.specs.Calls.{call_decision};
ghost use Rattle.cs_session.specs.Decisions.{Decides, question_of};
ghost use Rattle.cs_session.specs.Removes.{remove_run_question, remove_reply};
ghost use Rattle.cs_session.specs.Sizes.{IsPlain};

use crate::question::{RunQuestion, first_failing_rule, refusal};
use crate::reply::Reply;
use cs_fids::{FidEntry, FidTable};
use cs_permit::{Call, RemoveCall, Request};
use cs_run::Answer;

/// What the remove of a fid with this entry asks its run: to remove the file, for the fid's user.
/// If the fid is open, the call has the number of its open, else None.
fn remove_run_question(now: u32, entry: FidEntry) -> RunQuestion<'static>
    ensures { result ≡ remove_run_question now entry }
{
    let (run, pass, number) = (entry.run(), entry.pass(), entry.number());
    let open_number = match entry.as_opened() {
        Some(opened) => Some(opened.open_number()),
        None => None,
    };
    let call = Call::Remove(RemoveCall {
        number,
        user: entry.into_user(),
        open_number,
    });
    RunQuestion::new(now, run, pass, call)
}

/// What a remove asks the run of its fid; the fid is free afterwards. An error is the reply that
/// refuses it, the first of the connection's rules that fails; then no fid changes. It takes no
/// memory.
pub(crate) fn decide_remove(
    awaits_attach: bool,
    msize: Option<u32>,
    fids: &mut FidTable,
    now: u32,
    fid: u32,
) -> Result<RunQuestion<'static>, Reply>
    ensures decided { Decides question_of
        (call_decision now awaits_attach msize fids.old.fids (call.Remove fid)) result }
    ensures plain { IfErr result IsPlain }
    ensures idle { IsOk result → awaits_attach ≡ false }
    ensures taken { OnOk result (fids.new.fids ≡ remove fids.old.fids fid) }
    ensures unchanged { OnErr result (fids.new ≡ fids.old) }
{
    if let Some(rule) = first_failing_rule(awaits_attach, msize, &Request::Remove { fid }, fids) {
        return Err(Reply::Error(rule));
    }
    match fids.take_any(fid) {
        Ok(entry) => Ok(remove_run_question(now, entry)),
        // the rules refuse a fid that isn't there
        Err(_) => unreachable!(),
    }
}

/// The reply to a remove that the run answered: Remove, or the refusal.
pub(crate) fn remove_reply(answer: Answer) -> Reply
    ensures value { result ≡ remove_reply answer }
    ensures plain { IsPlain result }
{
    match answer {
        Answer::Removed => Reply::Remove,
        answer => refusal(answer),
    }
}
