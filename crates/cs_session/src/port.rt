//! The port of a connection, through which it finds runs, attaches to them and makes calls on them.
ghost use Rattle.cs_run.specs.Laws.{FitsCall};
ghost use Rattle.cs_session.specs.Questions.{Question, PortAnswer};
ghost use Rattle.cs_session.specs.Questions as q;

use cs_names::Text;
use cs_permit::{Call, FindFault, PassFault, TreeName};
use cs_run::Answer;
use std::alloc::Global;

/// The port of a connection. It keeps each run that the connection found and each pass that it was
/// given; the connection's fids name both by their places in the port, which are counted from 0 and
/// never change.
pub trait Port {
    /// From this state this question has this answer, and leads to that state.
    ghost gives: { Self → Question → PortAnswer → Self → Type 0 };

    /// Finds the run of that name, and returns its place. An error says why none was found; the
    /// port keeps no run then.
    fn find(&mut self, alloc: Global, name: &TreeName) -> Result<u32, FindFault>
        ensures { gives self.old (q.FindRun name.now.state.now name.now.run.now)
            (q.FindAnswer result) self.new };

    /// Attaches a user to the run at the place `run`, at the moment `now`, under a new pass.
    /// Returns the place of the pass, and the run's answer: if that denies the attach, the pass
    /// stays. Foreign if there is no run at that place. After an error there is no new pass
    /// (attach(5)).
    fn attach(
        &mut self,
        alloc: Global,
        now: u32,
        run: u32,
        user: Text,
    ) -> Result<(u32, Answer), PassFault>
        ensures given { gives self.old (q.AttachTo now run (record { user = user }))
            (q.AttachAnswer result) self.new };

    /// Makes a call on the run at the place `run`, at the moment `now`, under the pass at the place
    /// `pass`. The answer has at most the bytes or qids for which the call asks.
    fn call(&mut self, alloc: Global, now: u32, run: u32, pass: u32, call: Call<'_>) -> Answer
        ensures given { gives self.old (q.CallOn now run pass call.entry) (q.CallAnswer result)
            self.new }
        ensures fits { FitsCall call.entry result };
}
