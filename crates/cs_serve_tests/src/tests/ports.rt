//! What the port of a connection answers, of runs that others share.

use crate::tests::server::{runs_of, server_of};
use cs_connection::SharedPort;
use cs_names::Text;
use cs_permit::{Call, StatCall, TreeName};
use cs_run::Answer;
use cs_session::{FindFault, PassFault, Port};
use std::alloc::Global;

/// What the run answers a stat of the root under the pass.
fn stat(alloc: Global, port: &mut impl Port, run: u32, pass: u32) -> &'static str {
    let answer = port.call(alloc, 720, run, pass, Call::Stat(StatCall { number: 0 }));
    match &answer {
        Answer::Stat(_) => "stat",
        Answer::Denied(rule) => rule.text(),
        _ => "another",
    }
}

/// The place of the run of a state that is found.
fn find(alloc: Global, port: &mut impl Port, state: &str, run: &str) -> Result<u32, FindFault> {
    let name = TreeName {
        state: state.as_bytes(),
        run: run.as_bytes(),
    };
    port.find(alloc, &name)
}

/// A run of state 1, which isn't published, is Unpublished (A4), before and after run `x` of state
/// 0 was found 64 times; the 65th find of `x` is Full (A5), and `y` is found then.
#[test]
fn a_port_reports_why_a_run_is_not_found(rt: HostRuntime) {
    let alloc = rt.alloc();
    let server = server_of(&rt, alloc);
    let mut port = SharedPort::new(&rt, alloc, server.registry());
    assert!(rt; find(alloc, &mut port, "1", "x") == Err(FindFault::Unpublished));
    for place in 0..64 {
        assert!(rt; find(alloc, &mut port, "0", "x") == Ok(place));
    }
    assert!(rt; find(alloc, &mut port, "0", "x") == Err(FindFault::Full));
    assert!(rt; find(alloc, &mut port, "1", "x") == Err(FindFault::Unpublished));
    assert!(rt; find(alloc, &mut port, "0", "y") == Ok(64));
}

/// How an attach to the run at a place comes out: the place of the pass.
fn attach(alloc: Global, port: &mut impl Port, run: u32, user: &str) -> Result<u32, PassFault> {
    let Ok(user) = Text::copy_of(alloc, user) else {
        return Err(PassFault::Memory);
    };
    match port.attach(alloc, 720, run, user) {
        Ok((pass, Answer::Attached(_))) => Ok(pass),
        Ok(_) => Err(PassFault::Memory),
        Err(fault) => Err(fault),
    }
}

/// A port: an attach before any find is Foreign. Runs `a` and `b` are found at places 0 and 1, and
/// bob's pass of `b` is at place 0. A stat on run 1 under pass 0 is answered; on run 0 under pass
/// 0, on run 1 under pass 1, and on run 2 it is S5.
#[test]
fn a_port_keeps_the_places_of_runs_and_passes(rt: HostRuntime) {
    let alloc = rt.alloc();
    let server = server_of(&rt, alloc);
    let mut port = SharedPort::new(&rt, alloc, server.registry());
    assert!(rt; attach(alloc, &mut port, 0, "ann") == Err(PassFault::Foreign));
    assert!(rt; find(alloc, &mut port, "0", "a") == Ok(0));
    assert!(rt; find(alloc, &mut port, "0", "b") == Ok(1));
    assert!(rt; attach(alloc, &mut port, 1, "bob") == Ok(0));
    assert!(rt; stat(alloc, &mut port, 1, 0) == "stat");
    assert!(rt; stat(alloc, &mut port, 0, 0) == "S5 out of turn");
    assert!(rt; stat(alloc, &mut port, 1, 1) == "S5 out of turn");
    assert!(rt; stat(alloc, &mut port, 2, 0) == "S5 out of turn");
    assert!(rt; port.into_kept().passes().len() == 1);
    let runs = runs_of(&rt, alloc, &server);
    assert!(rt; runs.as_str().lines().count() == 2);
}
