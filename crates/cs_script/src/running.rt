//! What the lines of a script do in a world, and what they print.
ghost use Rattle.std.specs.Prelude.{◌≡◌, ◌<◌, ◌≤◌, ℕ, IfErr, IfOk, length, List, Ok, OnErr, OnOk};
ghost use Rattle.std.specs.Prelude.{string_bytes};
ghost use Rattle.cs_names.specs.declared.limits.TheConstants.{CONNECTIONS};
ghost use Rattle.cs_script.specs.Scripted.{RanTo, StoppedAt};
ghost use Rattle.cs_script.specs.Printed.{Acts, Loaded, Prints};
ghost use Rattle.cs_inputs.specs.Written.{BlamesOutput};
ghost use Rattle.cs_script.specs.declared.script.Action.TheVariants.{HangUp, Send};
ghost use Rattle.cs_stream.specs.Streams.{KeepsFaults, KeepsReads, Writes};
ghost use Rattle.cs_users.specs.Reading.{users_in};

use crate::printing::{closed_text, refused_text, reloaded_text, reply_text};
use crate::script::{Action, ScriptAct, ScriptLine};
use cs_inputs::{ProgramFault, print};
use cs_message_lines::print_exchange;
use cs_stream::Stream;
use cs_users::{Users, UsersFault};
use cs_wire::{RMessage, decode_request};
use cs_world::{Reply, Step, World};
use std::alloc::{AllocError, Global};
use std::io::Write;

/// Prints a message and its reply as text on `err`, if `verbose`. In place of a message that can't
/// be decoded, also because memory runs out, it prints the fault. A failed write is ignored.
fn print_if_verbose<E: Write>(
    alloc: Global,
    conn: u32,
    message: &[u8],
    reply: &RMessage,
    verbose: bool,
    err: &mut E,
) {
    if verbose {
        print_exchange(conn, &decode_request(alloc, message), &Ok(reply), err);
    }
}

/// Answers a message, and returns the line of the reply. A line of a script ensures that the
/// connection is one of the world and that the message has at least 7 bytes. If `verbose`, the
/// message and its reply are also printed on `err`. The only error is that memory for the line runs
/// out, after the message was answered.
fn answer_message<E: Write>(
    alloc: Global,
    world: &mut World,
    conn: u32,
    now: u32,
    message: &[u8],
    verbose: bool,
    err: &mut E,
) -> Result<String, AllocError>
    requires connection { conn < CONNECTIONS }
    requires whole { 7 ≤ length message.now }
    ensures ok { IfOk result (λ text.
        Acts world.old conn now (Send message.now) (string_bytes text) world.new) }
    ensures err { OnErr result ((text : List ℕ)
        × Acts world.old conn now (Send message.now) text world.new) }
{
    let reply = world.message(alloc, conn, now, message);
    print_if_verbose(alloc, conn, message, &reply, verbose, err);
    reply_text(alloc, conn, &reply)
}

/// Ends a connection, and returns the line of the hang-up. (While a run awaits its attach nothing
/// would end; no line of a script leaves a connection so.) The only error is that memory for the
/// line runs out, after the connection has ended. The connection must be one of the world, as a
/// `ScriptConn` is.
fn end_connection(
    alloc: Global,
    world: &mut World,
    conn: u32,
    now: u32,
) -> Result<String, AllocError>
    requires connection { conn < CONNECTIONS }
    ensures ok { IfOk result (λ text.
        Acts world.old conn now HangUp (string_bytes text) world.new) }
    ensures err { OnErr result ((text : List ℕ) × Acts world.old conn now HangUp text world.new) }
{
    world.hang_up(alloc, conn, now);
    closed_text(alloc, conn)
}

/// Takes the action of a line of the script on its connection, and returns the line of the outcome.
/// The only error is that memory for the returned line runs out, after the action was taken.
fn act_on_connection<E: Write>(
    alloc: Global,
    world: &mut World,
    act: &ScriptAct,
    verbose: bool,
    err: &mut E,
) -> Result<String, AllocError>
    ensures ok { IfOk result (λ text. Acts world.old act.now.conn act.now.moment
        act.now.action (string_bytes text) world.new) }
    ensures err { OnErr result ((text : List ℕ) × Acts world.old act.now.conn act.now.moment
        act.now.action text world.new) }
{
    let conn = act.conn.number();
    match &act.action {
        Action::Send(message) => answer_message(
            alloc,
            world,
            conn,
            act.moment,
            message.bytes(),
            verbose,
            err,
        ),
        Action::HangUp => end_connection(alloc, world, conn, act.moment),
    }
}

/// Gives these users to the runs that are made later, and returns the line of the outcome:
/// reloaded, or refused because memory ran out. The only error is that memory for the line runs
/// out, after that outcome. `file`, from which the users must have been read, is only for the
/// contract.
fn load_users(
    alloc: Global,
    world: &mut World,
    file: &[u8],
    users: Users,
) -> Result<String, AllocError>
    requires { users_in file.now ≡ Ok users }
    ensures ok { IfOk result (λ text. Loaded world.old file.now (string_bytes text) world.new) }
    ensures err { OnErr result ((text : List ℕ) × Loaded world.old file.now text world.new) }
{
    match world.step(alloc, Step::Reload(users)) {
        Reply::Reloaded => reloaded_text(alloc),
        // the world has no memory to keep the users
        Reply::NotReloaded => refused_text(alloc, UsersFault::Memory),
        // no reload has these replies
        Reply::Published | Reply::NotPublished(_) | Reply::Connection(_) => unreachable!(),
    }
}

/// Gives the users of a users file (users(6)) to the runs that are made later, and returns the line
/// of the outcome. A file at fault changes nothing, and its line names the fault. The only error is
/// that memory for the line runs out, after that outcome.
fn load_file(alloc: Global, world: &mut World, file: &[u8]) -> Result<String, AllocError>
    ensures ok { IfOk result (λ text. Loaded world.old file.now (string_bytes text) world.new) }
    ensures err { OnErr result ((text : List ℕ) × Loaded world.old file.now text world.new) }
{
    match Users::read(alloc, file) {
        Ok(users) => load_users(alloc, world, file, users),
        Err(fault) => refused_text(alloc, fault),
    }
}

/// Runs a line of the script, and returns the line of the outcome, unprinted. If `verbose`, a
/// message and its reply are also printed on `err`. The only error is that memory for the returned
/// line runs out, after all else was done.
fn take_line<E: Write>(
    alloc: Global,
    world: &mut World,
    line: &ScriptLine,
    verbose: bool,
    err: &mut E,
) -> Result<String, AllocError>
    ensures ok { IfOk result (λ text. Prints world.old line.now (string_bytes text) world.new) }
    ensures err { OnErr result ((text : List ℕ) × Prints world.old line.now text world.new) }
{
    match line {
        ScriptLine::Act(act) => act_on_connection(alloc, world, act, verbose, err),
        ScriptLine::Reload(users) => load_file(alloc, world, users.bytes()),
    }
}

/// Runs a line of the script, and prints the line of the outcome. An error is Memory or Output: all
/// else was done, but the line was not printed, or only in part.
fn run_line<S: Stream, E: Write>(
    alloc: Global,
    world: &mut World,
    line: &ScriptLine,
    stream: &mut S,
    verbose: bool,
    err: &mut E,
) -> Result<(), ProgramFault>
    ensures prints { (text : List ℕ) × Prints world.old line.now text world.new
        × Writes result (S.contents stream.old) (S.contents stream.new) text }
    ensures fault { IfErr result (BlamesOutput (S.counts stream.old) (S.counts stream.new)) }
    ensures faults { KeepsFaults (S.counts stream.old) (S.counts stream.new) }
    ensures reads { KeepsReads (S.counts stream.old) (S.counts stream.new) }
    ensures remaining { S.remaining stream.new ≡ S.remaining stream.old }
{
    match take_line(alloc, world, line, verbose, err) {
        Ok(text) => print(stream, text.as_bytes()),
        Err(_) => Err(ProgramFault::Memory),
    }
}

/// Runs lines, one after the other, until one fails as `run_line` does, which is the error; those
/// before it were done and printed, and those after it aren't run. If `verbose`, messages and their
/// replies are also printed on `err`.
pub(crate) fn run_lines<S: Stream, E: Write>(
    alloc: Global,
    world: &mut World,
    lines: &[ScriptLine],
    stream: &mut S,
    verbose: bool,
    err: &mut E,
) -> Result<(), ProgramFault>
    ensures ran { OnOk result (RanTo world.old lines.now (S.contents stream.old)
        (S.contents stream.new) world.new) }
    ensures stopped { OnErr result (StoppedAt world.old lines.now (S.contents stream.old)
        (S.contents stream.new) world.new) }
    ensures fault { IfErr result (BlamesOutput (S.counts stream.old) (S.counts stream.new)) }
    ensures faults { KeepsFaults (S.counts stream.old) (S.counts stream.new) }
    ensures reads { KeepsReads (S.counts stream.old) (S.counts stream.new) }
    ensures remaining { S.remaining stream.new ≡ S.remaining stream.old }
{
    for line in lines {
        if let Err(fault) = run_line(alloc, world, line, stream, verbose, err) {
            return Err(fault);
        }
    }
    Ok(())
}
