//! Closes of open fids (clunk(5)).
ghost use Rattle.std.specs.Prelude.{◌≡◌, ◌<◌, false, IfErr, IsOk, OnErr, OnOk};
ghost use Rattle.std.specs.FinMap.{len, remove};
ghost use Rattle.cs_fids.specs.Tables.{fid_at, opened_in};
ghost use Rattle.cs_session.specs.Removes.{close_decision, close_reply};
ghost use Rattle.cs_session.specs.Decisions.{Decides, question_of};
ghost use Rattle.cs_session.specs.Sizes.{IsPlain};

use crate::question::{RunQuestion, refusal};
use crate::reply::Reply;
use cs_fids::{FidEntry, FidTable};
use cs_names::RuleId;
use cs_permit::{Call, CloseCall};
use cs_run::Answer;

/// What the close of an open fid asks its run; the fid is free afterwards. The error is S5, and no
/// fid changes, if there is no open fid of that number or a run awaits its attach. It takes no
/// memory.
pub(crate) fn decide_close(
    awaits_attach: bool,
    fids: &mut FidTable,
    now: u32,
    fid: u32,
) -> Result<RunQuestion<'static>, Reply>
    ensures decided { Decides question_of (λ _. close_decision now awaits_attach fids.old.fids fid)
        result }
    ensures plain { IfErr result IsPlain }
    ensures idle { IsOk result → awaits_attach ≡ false }
    ensures opened { awaits_attach ≡ false → IsOk (opened_in (fid_at fids.old fid)) → IsOk result }
    ensures taken { OnOk result (fids.new.fids ≡ remove fids.old.fids fid) }
    ensures fewer { OnOk result (len fids.new.fids < len fids.old.fids) }
    ensures unchanged { OnErr result (fids.new ≡ fids.old) }
{
    if awaits_attach || fids.get_opened(fid).is_err() {
        return Err(Reply::Error(RuleId::S5));
    }
    match fids.take_any(fid) {
        Ok(FidEntry::Opened(opened)) => {
            let (run, pass, open_number) = (opened.run(), opened.pass(), opened.open_number());
            let call = Call::Close(CloseCall {
                open_number,
                user: opened.into_user(),
            });
            Ok(RunQuestion::new(now, run, pass, call))
        }
        // the fid is open, as the test above found
        Ok(FidEntry::Walked(_)) => unreachable!(),
        Err(_) => unreachable!(),
    }
}

/// The reply to a close that the run answered: Clunk, or the refusal.
pub(crate) fn close_reply(answer: Answer) -> Reply
    ensures value { result ≡ close_reply answer }
    ensures plain { IsPlain result }
{
    match answer {
        Answer::Closed => Reply::Clunk,
        answer => refusal(answer),
    }
}
