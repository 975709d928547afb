//! What a step asks a run, and the connection's own rules, which come first.
ghost use Rattle.std.specs.Prelude.{◌≡◌};
ghost use Rattle.cs_permit.specs.Refusals.{first_failing};
ghost use Rattle.cs_permit.specs.Table.{table_rules};
ghost use Rattle.cs_run.specs.Laws.{FitsCall};
ghost use Rattle.cs_session.specs.Decisions.{after_session, question_of, refusal};
ghost use Rattle.cs_session.specs.Questions.{CallAnswer};
ghost use Rattle.cs_session.specs.Sizes.{IsPlain};

use crate::port::Port;
use crate::reply::Reply;
use cs_fids::FidTable;
use cs_names::RuleId;
use cs_permit::{Call, Request, first_table_rule};
use cs_run::Answer;
use std::alloc::Global;

/// A call to make, with its moment and the places in the port of its run and of its pass.
#[derive(Drop)]
pub(crate) struct RunQuestion<'a> {
    /// The moment, in seconds since 1970.
    pub(crate) now: u32,
    /// The run's place in the port.
    pub(crate) run: u32,
    /// The pass's place in the port.
    pub(crate) pass: u32,
    /// What the run is asked.
    pub(crate) call: Call<'a>,
}

impl<'a> RunQuestion<'a> {
    /// The call at the moment `now`, on the run at the place `run` and under the pass at the place
    /// `pass`.
    pub(crate) fn new(now: u32, run: u32, pass: u32, call: Call<'a>) -> RunQuestion<'a>
        ensures { result ≡ record { now = now; run = run; pass = pass; call = call.entry } }
    {
        RunQuestion {
            now,
            run,
            pass,
            call,
        }
    }

    /// Makes the call, and returns the run's answer, which may be a refusal. The call is used up.
    pub(crate) fn ask<P: Port>(self, alloc: Global, port: &mut P) -> Answer
        ensures given { P.gives port.old (question_of self.entry) (CallAnswer result) port.new }
        ensures fits { FitsCall self.entry.call result }
    {
        port.call(alloc, self.now, self.run, self.pass, self.call)
    }
}

/// The first of the connection's rules that the request fails; None if it fails none. The rules are
/// S5 if a run awaits its attach, S1 if no session has begun, and then those of the connection's
/// fids. It takes no memory.
#[tactic(auto, unfolding(cs_permit::specs::Table::first_table_rule))]
pub(crate) fn first_failing_rule(
    awaits_attach: bool,
    msize: Option<u32>,
    request: &Request,
    fids: &FidTable,
) -> Option<RuleId>
    ensures { result ≡ first_failing
        (after_session awaits_attach msize (table_rules fids.now.fids request.now)) }
{
    if awaits_attach {
        return Some(RuleId::S5);
    }
    if msize.is_none() {
        return Some(RuleId::S1);
    }
    first_table_rule(request, fids)
}

/// The reply to an answer that doesn't grant the call: the rule that denies it, or out of memory if
/// it is Short. Callers match the grant of their own call first.
pub(crate) fn refusal(answer: Answer) -> Reply
    ensures value { result ≡ refusal answer }
    ensures plain { IsPlain result }
{
    match answer {
        Answer::Denied(rule) => Reply::Error(rule),
        Answer::Short => Reply::Memory,
        // a grant of another kind of call: no run answers so, but `Port` doesn't promise it
        _ => Reply::Memory,
    }
}
