//! Dialogues with a world. Each line has a request, an arrow, and the reply. A request is a
//! connection's number, and a message in words or `hangup`.

use cs_session::Reply;
use cs_test_messages::message_of;
use cs_wire::{RBody, RMessage};
use cs_world::World;
use std::alloc::Global;

/// What a line asks.
#[derive(Drop)]
pub struct Asked {
    conn: u32,
    /// None if the connection hangs up.
    message: Option<Vec<u8>>,
}

/// The reply to it.
#[derive(Drop)]
pub enum Told {
    Reply(RMessage),
    Closed(Reply),
}

/// The request that words mean.
pub fn asked_in(alloc: Global, asked: &str) -> Option<Asked> {
    let (conn, words) = asked.split_once(' ')?;
    let conn = conn.parse::<u32>().ok()?;
    if words == "hangup" {
        return Some(Asked {
            conn,
            message: None,
        });
    }
    let message = message_of(alloc, words)?;
    Some(Asked {
        conn,
        message: Some(message),
    })
}

/// The request of a line: the words before its arrow.
pub fn asked_by(alloc: Global, line: &str) -> Option<Asked> {
    let (asked, _) = line.split_once(" => ")?;
    asked_in(alloc, asked)
}

/// Sends the request to the world. A reply needs no memory but the world's.
pub fn ask(alloc: Global, world: &mut World, asked: &Asked) -> Option<Told> {
    if asked.conn >= 64 {
        return None;
    }
    let Some(message) = &asked.message else {
        return Some(Told::Closed(world.hang_up(alloc, asked.conn, 7)));
    };
    if message.len() < 7 {
        return None;
    }
    Some(Told::Reply(world.message(alloc, asked.conn, 7, message)))
}

pub fn tells_memory(told: &Told) -> bool {
    let Told::Reply(reply) = told else {
        return false;
    };
    match &reply.body {
        RBody::Error { ename } => ename.as_str() == "out of memory",
        _ => false,
    }
}

/// Adds a reply; a read's with its bytes.
fn push_reply(text: &mut String, reply: &RMessage) -> Option<()> {
    write!(text, "{reply}").ok()?;
    if let RBody::Read { data } = &reply.body {
        write!(text, " {data:?}").ok()?;
    }
    Some(())
}

pub fn push_told(text: &mut String, told: &Told) -> Option<()> {
    match told {
        Told::Reply(reply) => push_reply(text, reply),
        Told::Closed(reply) => write!(text, "{reply:?}").ok(),
    }
}

/// Adds a line: the request, an arrow, and the reply.
pub fn push_line(text: &mut String, asked: &str, told: &Told) -> Option<()> {
    write!(text, "{asked} => ").ok()?;
    push_told(text, told)?;
    text.push('\n').ok()
}

/// Sends the request that words mean, and adds its line.
pub fn push_asked(alloc: Global, world: &mut World, text: &mut String, words: &str) -> Option<()> {
    let asked = asked_in(alloc, words)?;
    let told = ask(alloc, world, &asked)?;
    push_line(text, words, &told)
}

/// Adds a dialogue with the replies to its lines.
pub fn push_dialogue(
    alloc: Global,
    world: &mut World,
    text: &mut String,
    dialogue: &str,
) -> Option<()> {
    for line in dialogue.lines() {
        let (asked, _) = line.split_once(" => ")?;
        push_asked(alloc, world, text, asked)?;
    }
    Some(())
}
