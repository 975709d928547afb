//! Examples of a connection over a port that keeps no runs, and answers each call by its kind.
use super::asking::{attaching, message_of};
use super::fake_port::Fake;
use cs_names::RuleId;
use cs_session::{CallMessage, Message, Reply, Session, TableStep, message_is_steps};
use std::alloc::Global;
use std::process::Abort;

/// The reply to a message, of a connection that awaits no attach.
fn ask(alloc: Global, session: &mut Session, port: &mut Fake, message: Message<'_>) -> Reply {
    if session.awaits_attach() {
        return Reply::Error(RuleId::S5);
    }
    session.answer(alloc, port, 1, message)
}

/// Adds the message, an arrow, and the reply.
fn push_line(
    rt: &impl Abort,
    alloc: Global,
    session: &mut Session,
    port: &mut Fake,
    text: &mut String,
    asked: &str,
) {
    let message = message_of(rt, alloc, asked);
    let reply = ask(alloc, session, port, message);
    write!(text, "{asked} => {reply:?}\n").expect(rt, "memory")
}

fn push_lines(
    rt: &impl Abort,
    alloc: Global,
    session: &mut Session,
    port: &mut Fake,
    text: &mut String,
    lines: &str,
) {
    for line in lines.lines() {
        let (asked, _) = line.split_once(" => ").expect(rt, "a value");
        push_line(rt, alloc, session, port, text, asked);
    }
}

/// Sends messages, and checks their replies. Each line has a message in words, an arrow, and the
/// reply.
fn expect(rt: &(impl Abort + AllocGlobal), session: &mut Session, port: &mut Fake, lines: &str) {
    let mut told = String::new(rt.alloc());
    push_lines(rt, rt.alloc(), session, port, &mut told, lines);
    assert!(rt; told.as_str() == lines, "{told}");
}

/// Fids 5, 2, 9 are opened in this order. A version with an msize of 1,023 is S4, and has closed
/// the opens 1, 0, 2 of the fids 2, 5, 9.
#[test]
fn a_refused_version_closes_open_fids_in_ascending_order(rt: HostRuntime) {
    let mut port = Fake::new(rt.alloc());
    let mut session = Session::new(rt.alloc());
    expect(
        &rt,
        &mut session,
        &mut port,
        "\
version 8192 => Version { msize: 8192, is_spoken: true }
attach 5 => Attach(Qid { kind: 0, vers: 4, path: 3 })
open 5 => Open(Qid { kind: 0, vers: 4, path: 3 })
attach 2 => Attach(Qid { kind: 0, vers: 4, path: 3 })
open 2 => Open(Qid { kind: 0, vers: 4, path: 3 })
attach 9 => Attach(Qid { kind: 0, vers: 4, path: 3 })
open 9 => Open(Qid { kind: 0, vers: 4, path: 3 })
attach 7 => Attach(Qid { kind: 0, vers: 4, path: 3 })
version 1023 => Error(S4)
",
    );
    assert!(rt; port.closed.as_slice() == [1, 0, 2].as_slice());
    assert!(rt; session.msize().is_none());
}

/// Fids 8, 4, 9 are opened in this order. A hang-up closes the opens 1, 0, 2 of the fids 4, 8, 9,
/// and the connection has no session then.
#[test]
fn a_hang_up_closes_open_fids_in_ascending_order_and_frees_all(rt: HostRuntime) {
    let mut port = Fake::new(rt.alloc());
    let mut session = Session::new(rt.alloc());
    expect(
        &rt,
        &mut session,
        &mut port,
        "\
version 8192 => Version { msize: 8192, is_spoken: true }
attach 8 => Attach(Qid { kind: 0, vers: 4, path: 3 })
open 8 => Open(Qid { kind: 0, vers: 4, path: 3 })
attach 4 => Attach(Qid { kind: 0, vers: 4, path: 3 })
open 4 => Open(Qid { kind: 0, vers: 4, path: 3 })
attach 9 => Attach(Qid { kind: 0, vers: 4, path: 3 })
open 9 => Open(Qid { kind: 0, vers: 4, path: 3 })
",
    );
    assert!(rt; !session.awaits_attach());
    session.hang_up(rt.alloc(), &mut port, 1);
    assert!(rt; port.closed.as_slice() == [1, 0, 2].as_slice());
    expect(&rt, &mut session, &mut port, "clunk 8 => Error(S1)\n");
}

/// The close of a clunk is out of memory: the next clunk is N1.
#[test]
fn frees_a_fid_whose_close_is_short_of_memory(rt: HostRuntime) {
    let mut port = Fake::new(rt.alloc());
    port.is_short = true;
    expect(
        &rt,
        &mut Session::new(rt.alloc()),
        &mut port,
        "\
version 8192 => Version { msize: 8192, is_spoken: true }
attach 3 => Attach(Qid { kind: 0, vers: 4, path: 3 })
open 3 => Open(Qid { kind: 0, vers: 4, path: 3 })
clunk 3 => Memory
clunk 3 => Error(N1)
",
    );
}

/// Checks the reply to a step.
fn expect_reply(rt: &(impl Abort + AllocGlobal), reply: Reply, wanted: &str) {
    let mut text = String::new(rt.alloc());
    write!(text, "{reply:?}").expect(rt, "memory");
    assert!(rt; text.as_str() == wanted, "{text}");
}

/// Begins a session, and has a run found for an attach as the fid 4.
fn found(rt: &(impl Abort + AllocGlobal), port: &mut Fake) -> Session {
    let mut session = Session::new(rt.alloc());
    expect(
        rt,
        &mut session,
        port,
        "\
version 8192 => Version { msize: 8192, is_spoken: true }
attach 1 => Attach(Qid { kind: 0, vers: 4, path: 3 })
open 1 => Open(Qid { kind: 0, vers: 4, path: 3 })
",
    );
    let message = attaching(rt, rt.alloc(), 4);
    expect_reply(rt, session.find_step(rt.alloc(), port, message), "Found");
    session
}

/// Between the find of an attach and the attach every other step is S5; so is a second attach.
#[test]
fn takes_no_other_step_while_an_attach_is_awaited(rt: HostRuntime) {
    let mut port = Fake::new(rt.alloc());
    let mut session = found(&rt, &mut port);
    let stat = session.call_step(rt.alloc(), &mut port, 1, CallMessage::Stat(1));
    expect_reply(&rt, stat, "Error(S5)");
    let close = session.close_step(rt.alloc(), &mut port, 1, 1);
    expect_reply(&rt, close, "Error(S5)");
    let table = session.table_step(TableStep::HangUp);
    expect_reply(&rt, table, "Error(S5)");
    let attached = session.attach_step(rt.alloc(), &mut port, 1);
    expect_reply(&rt, attached, "Attach(Qid { kind: 0, vers: 4, path: 3 })");
    let again = session.attach_step(rt.alloc(), &mut port, 1);
    expect_reply(&rt, again, "Error(S5)");
    message_is_steps(&port);
}
