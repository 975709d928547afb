//! What the definitions of steps and messages say, as laws. A call of a function here does nothing:
//! its contract is the law.
ghost use Rattle.std.specs.Prelude.{◌≡◌, ℕ, Bool, List};
ghost use Rattle.cs_names.specs.declared.rule_id.RuleId.{RuleId};
ghost use Rattle.cs_permit.specs.Refusals.{IsFirstToFail};
ghost use Rattle.cs_permit.specs.declared.call.Call.{Call};
ghost use Rattle.cs_session.specs.declared.message.Message.{Message};
ghost use Rattle.cs_session.specs.declared.reply.Reply.{Reply};
ghost use Rattle.cs_session.specs.Marks.{OwnMark};
ghost use Rattle.cs_session.specs.Messages.{Answers};
ghost use Rattle.cs_session.specs.OfFids.{IsForFid};
ghost use Rattle.cs_session.specs.OwnRules.{own_rules};
ghost use Rattle.cs_session.specs.Questions.{CallOn};
ghost use Rattle.cs_session.specs.Sessions.{SessionState};
ghost use Rattle.cs_session.specs.Steps.{Asks, Done, Step, first_move_by};
ghost use Rattle.cs_session.specs.Trails.{IsTrail};

use crate::port::Port;

/// Each call that a connection makes is for one of its fids: on the fid's run, under its pass, on
/// its file, for its user.
pub fn calls_are_of_their_fids()
    ensures { (now : ℕ) (session : SessionState) (step : Step) (refused : Bool)
        (moment place pass : ℕ)
        (call : Call)
        → first_move_by now session step refused ≡ Asks (CallOn moment place pass call)
        → IsForFid session now moment place pass call }
{}

/// If a connection itself replies to a step with an error, the error is the first of its own rules
/// that the step fails.
pub fn own_denials_are_the_first_rule()
    ensures { (now : ℕ) (session left : SessionState) (step : Step) (refused : Bool) (rule : RuleId)
        → first_move_by now session step refused ≡ Done (Reply.Error rule) left
        → IsFirstToFail (own_rules now session step) rule }
{}

/// A message is its steps, one after the other, each with a mark that says whether memory of the
/// connection itself runs out in it; the message's reply is that to the last step. The port is an
/// argument only for its type.
pub fn message_is_steps<P: Port>(_port: &P)
    ensures { (now : ℕ) (message : Message) (marks : List OwnMark) (s t : SessionState) (p q : P)
        (reply : Reply) → Answers P.gives now message marks s p reply t q
        → IsTrail P.gives now s p marks reply t q }
{}
