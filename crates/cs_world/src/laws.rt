//! What the definitions of steps say, as laws. A call of a function here does nothing: its contract
//! is the law.
ghost use Rattle.std.specs.Prelude.{◌≡◌, ◌<◌, ◌++◌, ℕ, false, length, List};
ghost use Rattle.cs_journal.specs.Marks.{StepMark};
ghost use Rattle.cs_journal.specs.Runs.{RunOf};
ghost use Rattle.cs_names.specs.declared.limits.TheConstants.{CONNECTIONS};
ghost use Rattle.cs_permit.specs.declared.call.Call.{Call};
ghost use Rattle.cs_plan.specs.Scenes.{IsPlan, Scene, order_in};
ghost use Rattle.cs_session.specs.Steps.{Step as SessionStep};
ghost use Rattle.cs_users.specs.Rows.{Row};
ghost use Rattle.cs_world.specs.declared.step.Step.{Step};
ghost use Rattle.cs_world.specs.declared.step.Step.TheVariants.{Publish, Reload};
ghost use Rattle.cs_world.specs.Ample.{nothing_refused, says_out_of_memory};
ghost use Rattle.cs_world.specs.Comes.{ConnectionStepComes};
ghost use Rattle.cs_world.specs.Isolation.{NoneReachesAnother};
ghost use Rattle.cs_world.specs.Ends.{CallComesTo};
ghost use Rattle.cs_world.specs.Lists.{follow_on, steps_of};
ghost use Rattle.cs_world.specs.Marks.{WorldMark};
ghost use Rattle.cs_world.specs.Consistent.{AsksWhatCanBeAsked, IsConsistent};
ghost use Rattle.cs_world.specs.Reaching.{ChangesWhatItAsks, KeepsRuns, NewRunIsState};
ghost use Rattle.cs_world.specs.Replies.{AreAnsweredBySteps, AreRepliedBySteps};
ghost use Rattle.cs_world.specs.Runs.{run_step};
ghost use Rattle.cs_world.specs.Steps.{on_connection, step_of};
ghost use Rattle.cs_world.specs.Theorem.{AllBegan};
ghost use Rattle.cs_world.specs.Worlds.{World, new_world};

/// A call on a run ends in one of five ways. Without an entry in the journal: L1 if the journal is
/// full, or out of memory for the entry. With an entry, which is the journal's last and has that
/// pass and moment: denied by the first rule that fails on the run's tree, opens and users; or, if
/// none fails, out of memory that the call takes, or granted with the effect of its kind. Only a
/// grant changes the tree.
pub fn calls_are_judged()
    ensures { (run : RunOf) (now pass : ℕ) (call : Call) (mark : StepMark) →
        CallComesTo run now pass call (run_step run now pass call mark).0
        (run_step run now pass call mark).1 }
{}

/// A step of a connection changes no other connection, and at most one run: the one that it asks.
/// Of every run that it neither asks nor finds, the key and the count of finds stay too. A publish
/// and a reload change no run and no connection. No step changes the scene.
pub fn only_what_is_asked_changes()
    ensures step { (world : World) (conn now : ℕ) (step : SessionStep) (mark : WorldMark) →
        ChangesWhatItAsks world conn now step mark }
    ensures publish { (world : World) (number : ℕ) (mark : WorldMark) →
        KeepsRuns world (step_of world (Publish number) mark).1 }
    ensures reload { (world : World) (users : List Row) (mark : WorldMark) →
        KeepsRuns world (step_of world (Reload users) mark).1 }
    ensures scene { (world : World) (step : Step) (mark : WorldMark) →
        (step_of world step mark).1.registry.scene ≡ world.registry.scene }
{}

/// A run that a step made is new, over the tree that is the state of its number, and that state is
/// published.
pub fn new_runs_are_states()
    ensures { (world : World) (conn now : ℕ) (step : SessionStep) (mark : WorldMark) →
        NewRunIsState world (on_connection world conn now step mark).1 }
{}

/// A new world is consistent, and each step leads from a consistent world to a consistent one. In
/// such a world a connection attaches to a run that is there and can give a pass, and calls on a
/// run that is there, under a pass that the run gave: so no attach to a run that was found is A5 or
/// S5, and no call is S5 because there is no run or no pass. Each fid's user is one that a granted
/// attach of its pass named. Each run began as the crash state of its number's set: one that a
/// crash may leave, if the scene's plan is a plan of its order, as `World::scene` says.
pub fn worlds_are_consistent()
    ensures new { (scene : Scene) (users : List Row) → IsConsistent (new_world scene users) }
    ensures step { (world : World) → IsConsistent world → (step : Step) (mark : WorldMark) →
        IsConsistent (step_of world step mark).1 }
    ensures steps { (world : World) → IsConsistent world → (marked : List (Step × WorldMark)) →
        IsConsistent (steps_of world marked).1 }
    ensures asked { (world : World) → IsConsistent world → (conn : ℕ) → conn < CONNECTIONS →
        AsksWhatCanBeAsked world conn }
    ensures began { (world : World) → IsConsistent world →
        IsPlan (order_in world.registry.scene) world.registry.scene.plan → AllBegan world }
{}

/// A step of a connection, in a consistent world, results in one of these: S5 if no connection has
/// the number; the connection answers by itself, and no run changes; the registry finds a run; or
/// the call, which may be an attach, is judged on its run under its pass, no other run changes, and
/// the connection continues from the answer.
pub fn steps_are_judged()
    ensures { (world : World) → IsConsistent world →
        (conn now : ℕ) (step : SessionStep) (mark : WorldMark) →
        ConnectionStepComes world conn now step mark }
{}

/// The reply to a message, and to a hang-up, is that of the last of some steps of the world, all of
/// that connection at that moment, taken one after the other; or no step was taken. Two lists of
/// steps, one after the other, are taken as one list is.
pub fn messages_are_steps()
    ensures message { (world : World) (conn now : ℕ) → conn < CONNECTIONS →
        conn < length world.connections → AreRepliedBySteps world conn now }
    ensures answered { (world : World) (conn now : ℕ) → conn < CONNECTIONS →
        conn < length world.connections → AreAnsweredBySteps world conn now }
    ensures follow { (world : World) (ones others : List (Step × WorldMark)) →
        steps_of world (ones ++ others) ≡ follow_on (steps_of world ones) others }
{}

/// A step whose reply doesn't say out of memory is the same as if no allocation had failed. In a
/// consistent world, if no allocation fails, the reply doesn't say out of memory.
pub fn only_out_of_memory_differs()
    ensures differs { (world : World) (step : Step) (mark : WorldMark) →
        says_out_of_memory (step_of world step mark).0 ≡ false →
        step_of world step mark ≡ step_of world step nothing_refused }
    ensures suffices { (world : World) → IsConsistent world → (step : Step) →
        says_out_of_memory (step_of world step nothing_refused).0 ≡ false }
{}

/// No run reaches another: three laws of every list of steps from a new world, whichever
/// allocations fail in them. Each run is a fresh one with the users of the time of its first
/// granted find, after the calls that reached it. The same calls to a run with the same users leave
/// the same run. Of two groups of connections that find no run in common, the first doesn't notice
/// the second, if no find meets the limit of runs. The laws also hold for what `step`, `message`
/// and `hang_up` result in, one after the other.
pub fn no_run_reaches_another()
    ensures { (scene : Scene) (users : List Row) (marked : List (Step × WorldMark)) →
        NoneReachesAnother (new_world scene users) marked }
{}
