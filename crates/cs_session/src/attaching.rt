//! The two steps of an attach: its run is found, and then its user is attached to the run
//! (attach(5)).
ghost use Rattle.std.specs.Prelude.{◌≡◌, ◌≢◌, ◌<◌, ◌≤◌, false, IfErr, IfOk, IsOk, None};
ghost use Rattle.std.specs.FinMap.{get};
ghost use Rattle.cs_session.specs.Attaches.{attach_settled, find_decision, find_refusal};
ghost use Rattle.cs_session.specs.Attaches.{pass_refusal};
ghost use Rattle.cs_session.specs.Decisions.{Decides};
ghost use Rattle.cs_session.specs.Names.{user_in};
ghost use Rattle.cs_session.specs.Questions.{FindRun};
ghost use Rattle.cs_session.specs.Sizes.{IsPlain};

use crate::fid_changes::put_new;
use crate::message::AttachMessage;
use crate::question::{first_failing_rule, refusal};
use crate::reply::Reply;
use cs_fids::{Fid, FidTable, NOFID};
use cs_names::{NameFault, RuleId, UserName};
use cs_permit::{FindFault, PassFault, Request, TreeName};
use cs_run::Answer;
use std::alloc::{AllocError, Global};

/// The client's text as a user's name; None if it isn't a legal name of a user (users(6)). The
/// error is out of memory.
fn user_in(alloc: Global, uname: &str) -> Result<Option<UserName>, AllocError>
    ensures { IfOk result (λ user. user ≡ user_in uname.now) }
{
    match UserName::read(alloc, uname.as_bytes()) {
        Ok(user) => Ok(Some(user)),
        Err(NameFault::Memory) => Err(AllocError),
        Err(_) => Ok(None),
    }
}

/// The name of the run that an attach asks for, and the name of its user. The user is None if the
/// client's text isn't a user's name: the refusal, A6, comes only once the run has answered. An
/// error is the reply that refuses the find: the first of the connection's rules that fails, or out
/// of memory. No fid changes; after `Ok` the table has room for the attach's fid.
pub(crate) fn decide_find<'a>(
    alloc: Global,
    awaits_attach: bool,
    msize: Option<u32>,
    fids: &mut FidTable,
    message: &'a AttachMessage,
) -> Result<(TreeName<'a>, Option<UserName>), Reply>
    ensures decided { Decides (λ a. FindRun a.0.state.now a.0.run.now)
        (find_decision awaits_attach msize fids.old.fids message.now) result }
    ensures plain { IfErr result IsPlain }
    ensures idle { IsOk result → awaits_attach ≡ false }
    ensures user { IfOk result (λ a. a.1 ≡ user_in message.now.uname) }
    ensures named { IsOk result → message.now.fid ≢ NOFID }
    ensures free { IsOk result → get fids.old.fids message.now.fid ≡ None }
    ensures room { IsOk result → 0 < fids.new.room }
    ensures kept { fids.old.room ≤ fids.new.room }
    ensures fids { fids.new.fids ≡ fids.old.fids }
{
    let request = Request::Attach {
        fid: message.fid,
        afid: message.afid,
        aname: message.aname.as_str(),
    };
    if let Some(rule) = first_failing_rule(awaits_attach, msize, &request, fids) {
        return Err(Reply::Error(rule));
    }
    // the rules refuse a full table, so the only error is out of memory
    if fids.reserve().is_err() {
        return Err(Reply::Memory);
    }
    let Ok(user) = user_in(alloc, message.uname.as_str()) else {
        return Err(Reply::Memory);
    };
    match TreeName::read(message.aname.as_str().as_bytes()) {
        Some(name) => Ok((name, user)),
        // the rules refuse a text that can't name a run
        None => unreachable!(),
    }
}

/// The reply to an attach whose run was not found: A4 if its state isn't published, A5 if there is
/// no room for the attach, or out of memory.
pub(crate) fn find_refusal(fault: FindFault) -> Reply
    ensures value { result ≡ find_refusal fault }
    ensures plain { IsPlain result }
{
    match fault {
        FindFault::Unpublished => Reply::Error(RuleId::A4),
        FindFault::Full => Reply::Error(RuleId::A5),
        FindFault::Memory => Reply::Memory,
    }
}

/// The reply to an attach for which the run gave no pass: A5 if it gave RUN_ATTACHES already, S5 if
/// there is no such run, or out of memory.
pub(crate) fn pass_refusal(fault: PassFault) -> Reply
    ensures value { result ≡ pass_refusal fault }
    ensures plain { IsPlain result }
{
    match fault {
        PassFault::Room => Reply::Error(RuleId::A5),
        PassFault::Foreign => Reply::Error(RuleId::S5),
        PassFault::Memory => Reply::Memory,
    }
}

/// The reply to an attach for which the run gave a pass. If the run grants the attach, the fid is
/// added, as the run's root; but A6 if `user` is None, because the client's text isn't a user's
/// name. After any refusal no fid changes, but the run keeps the pass. It takes no memory.
/// `decide_find` has checked that the fid is free and isn't NOFID, and made room for it.
pub(crate) fn settle_attach(
    fids: &mut FidTable,
    fid: u32,
    run: u32,
    user: Option<UserName>,
    pass: u32,
    answer: Answer,
) -> Reply
    requires named { fid ≢ NOFID }
    requires free { get fids.old.fids fid ≡ None }
    requires room { 0 < fids.old.room }
    ensures value { (result, fids.new.fids)
        ≡ attach_settled fids.old.fids fid run user pass answer }
    ensures plain { IsPlain result }
{
    match answer {
        Answer::Attached(qid) => match user {
            Some(user) => {
                // 0 is the number of a tree's root
                put_new(fids, fid, Fid::new(run, pass, 0, user));
                Reply::Attach(qid)
            }
            None => Reply::Error(RuleId::A6),
        },
        answer => refusal(answer),
    }
}
