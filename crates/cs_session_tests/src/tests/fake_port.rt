//! A port that keeps no runs, and answers each call by its kind.
use cs_names::{RuleId, Text};
use cs_permit::{Call, TreeName};
use cs_run::Answer;
use cs_session::{FindFault, PassFault, Port};
use cs_wire::Qid;
use std::alloc::Global;

/// The qid in the answer to each attach and open.
const QID: Qid = Qid {
    kind: 0,
    vers: 4,
    path: 3,
};

/// Answers each call by its kind, and keeps which opens were closed and at which moments it was
/// asked.
#[derive(Drop)]
pub struct Fake {
    /// Each close is out of memory.
    pub is_short: bool,
    opens: u32,
    pub closed: Vec<u32>,
    pub moments: Vec<u32>,
}

impl Fake {
    pub fn new(alloc: Global) -> Fake {
        Fake {
            is_short: false,
            opens: 0,
            closed: Vec::new(alloc),
            moments: Vec::new(alloc),
        }
    }

    /// An open, whose number is the next one.
    fn opened(&mut self) -> Answer {
        let open_number = self.opens;
        self.opens = open_number.wrapping_add(1);
        Answer::Opened {
            qid: QID,
            open_number,
            number: 3,
        }
    }

    fn close(&mut self, open_number: u32) -> Answer {
        if self.is_short || self.closed.push(open_number).is_err() {
            return Answer::Short;
        }
        Answer::Closed
    }
}

impl Port for Fake {
    ghost gives = { λ p question told p'. Unit {0} };

    fn find(&mut self, _alloc: Global, name: &TreeName) -> Result<u32, FindFault> {
        if name.is_of_state_zero() {
            Ok(0)
        } else {
            Err(FindFault::Unpublished)
        }
    }

    fn attach(
        &mut self,
        _alloc: Global,
        now: u32,
        _run: u32,
        _user: Text,
    ) -> Result<(u32, Answer), PassFault> {
        match self.moments.push(now) {
            Ok(()) => Ok((1, Answer::Attached(QID))),
            Err(_) => Err(PassFault::Memory),
        }
    }

    fn call(&mut self, _alloc: Global, now: u32, _run: u32, _pass: u32, call: Call<'_>) -> Answer {
        if self.moments.push(now).is_err() {
            return Answer::Short;
        }
        match call {
            Call::Attach(_) => Answer::Short,
            Call::Walk(_) => Answer::Denied(RuleId::K8),
            Call::Open(_) => self.opened(),
            Call::Create(_) => self.opened(),
            Call::Read(_) => Answer::Denied(RuleId::G3),
            Call::Write(_) => Answer::Written(3),
            Call::Close(call) => self.close(call.open_number),
            Call::Remove(_) => Answer::Removed,
            Call::Stat(_) => Answer::Denied(RuleId::H2),
            Call::Wstat(_) => Answer::Changed,
        }
    }
}
