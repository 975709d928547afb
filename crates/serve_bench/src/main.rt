//! Measures a server over TCP next to servers that answer and do no work, except that they may keep
//! what is written. Run by hand, it is such a server, or the clients of all; without a word it
//! tries both ends on a few messages, and prints no time.
#![tactic(auto)]

mod bare;
mod client;
mod keeping;
mod kind;
mod link;
mod messages;
mod rows;
mod side;
mod sides;

use crate::bare::serve_each;
use crate::client::Limit;
use crate::keeping::Keeping;
use crate::kind::Kind;
use crate::rows::print_alone;
use crate::side::Side;
use crate::sides::Sides;
use std::alloc::Global;
use std::net::{Net, TcpListener, TcpStream};
use std::rt::Clock;
use std::sync::Wait;
use std::thread::Threads;
use std::time::Duration;
use std::{env, io, thread};

/// How often a client does a work that is tried.
const TRIED: u32 = 3;

/// How many clients try.
const TRIED_CONNECTIONS: u32 = 2;

/// Serves so many connections at the address.
fn run_server<R>(rt: &R, address: &str, connections: u32, keeping: Keeping) -> io::Result<()>
where
    R: Net<Listener = TcpListener, Stream = TcpStream>,
    R: Print + AllocGlobal + Threads + Wait + Sync,
{
    let listener = TcpListener::bind(rt, address)?;
    println!(rt; "listening {address}")?;
    serve_each(rt, rt.alloc(), &listener, connections, keeping)
}

/// Does each work by the clients of all servers, in turns.
fn run_clients<R>(rt: &R, addresses: &[String], connections: u32, own_runs: bool) -> io::Result<()>
where
    R: Net<Stream = TcpStream> + Print + AllocGlobal + Clock + Threads + Sync,
{
    let mut sides = Sides::connect(rt, addresses, connections, own_runs)?;
    for kind in Kind::ALL {
        sides.measure(rt, kind)?;
    }
    Ok(())
}

/// Does each work a few times.
fn try_each<R>(rt: &R, address: &str) -> io::Result<()>
where
    R: Net<Stream = TcpStream> + Print + AllocGlobal + Clock + Threads + Sync,
{
    let mut side = Side::connect(rt, rt.alloc(), address, TRIED_CONNECTIONS, true)?;
    let limit = Limit {
        works: TRIED,
        time: Duration::MAX,
    };
    for kind in Kind::ALL {
        side.round(rt, kind, limit)?;
        let figures = side.figures(rt.alloc())?;
        print_alone(rt, kind, &figures, TRIED_CONNECTIONS, false)?;
    }
    Ok(())
}

/// Serves a few messages to clients in this process.
fn run_trial<R>(rt: &R, keeping: Keeping) -> io::Result<()>
where
    R: Net<Listener = TcpListener, Stream = TcpStream>
        + Print
        + AllocGlobal
        + Clock
        + Threads
        + Wait
        + Sync,
{
    let alloc: Global = rt.alloc();
    let listener = TcpListener::bind(rt, "127.0.0.1:0")?;
    let port = listener.local_addr()?.port();
    let address = format!(in alloc; "127.0.0.1:{port}")?;
    let (served, tried) = thread::join(
        rt,
        || serve_each(rt, alloc, &listener, TRIED_CONNECTIONS, keeping),
        || try_each(rt, address.as_str()),
    );
    tried?;
    served?;
    let name = keeping.name();
    println!(rt; "ended: {name}")
}

/// The number that a word spells, 1 of another word.
fn number(word: &str) -> u32 {
    word.parse::<u32>().unwrap_or(1)
}

fn run<R>(rt: &R, words: &[String]) -> io::Result<()>
where
    R: Net<Listener = TcpListener, Stream = TcpStream>
        + Print
        + AllocGlobal
        + Clock
        + Threads
        + Wait
        + Sync,
{
    match words {
        [] => {
            run_trial(rt, Keeping::Nothing)?;
            run_trial(rt, Keeping::Blocks)?;
            run_trial(rt, Keeping::LargeBlocks)
        }
        [address, connections, keeping] => {
            let keeping = Keeping::of(keeping.as_str());
            run_server(rt, address.as_str(), number(connections.as_str()), keeping)
        }
        [addresses @ .., connections, runs] if addresses.len() == 4 => {
            let own_runs = runs.as_str() == "own";
            run_clients(rt, addresses, number(connections.as_str()), own_runs)
        }
        _ => println!(rt;
            "ADDR CONNECTIONS forgets|blocks|large, or ADDR ADDR ADDR ADDR CONNECTIONS one|own"
        ),
    }
}

fn main(rt: HostRuntime) -> io::Result<()> {
    let mut words = Vec::new(rt.alloc());
    for word in env::args(&rt)?.skip(1) {
        words.push(word)?;
    }
    run(&rt, &words)
}
