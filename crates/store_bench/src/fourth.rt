//! Traces of version 4, timed: a start file in parts, and directories that are renamed.

use crate::reading::AsTrace;
use crate::states::{Planning, keep_states, scene, time_once};
use cs_bench::{Bound, print_figure};
use std::alloc::{AllocError, Global};
use std::io;
use std::rt::{Clock, Files};

const HEADER: &str =
    r#"{"trace":4,"profile":"blocks","block":4096,"owner":"ann","group":"ann","mode":"755"}"#;

/// The owner, the group and the permissions of a start line.
const RIGHTS: &str = r#""owner":"ann","group":"ann","mode":"755""#;

/// One start file of 64 MiB, with bytes in so many parts and zeros elsewhere.
fn in_parts(alloc: Global, count: u64) -> Result<String, AllocError> {
    let mut text = format!(in alloc;
        "{HEADER}\n{{\"start\":\"file\",\"path\":\"/f\",{RIGHTS},\"length\":67108864,\"parts\":["
    )?;
    for part in 0..count {
        let comma = if part == 0 { "" } else { "," };
        let at = part % 1_024 * 65_536;
        let part = format!(in alloc; "{comma}{{\"at\":{at},\"text\":\"sixteen bytes..\"}}")?;
        text.push_str(part.as_str())?;
    }
    text.push_str("]}")?;
    Ok(text)
}

/// So many directories with a file each, of which each is renamed.
fn renamed(alloc: Global, count: u64) -> Result<String, AllocError> {
    let mut text = String::from_str(alloc, HEADER)?;
    for number in 0..count {
        let directory = format!(in alloc;
            "\n{{\"start\":\"dir\",\"path\":\"/from{number}\",{RIGHTS}}}"
        )?;
        text.push_str(directory.as_str())?;
        let file = format!(in alloc;
            "\n{{\"start\":\"file\",\"path\":\"/from{number}/f\",{RIGHTS},\"text\":\"f\"}}"
        )?;
        text.push_str(file.as_str())?;
    }
    for number in 0..count {
        let rename = format!(in alloc;
            "\n{{\"op\":\"rename\",\"from\":\"/from{number}\",\"to\":\"/to{number}\"}}"
        )?;
        text.push_str(rename.as_str())?;
    }
    Ok(text)
}

/// Reads a start file in parts.
fn read_parts(rt: &(impl Clock + Print + AllocGlobal), timed: bool) -> io::Result<()> {
    let text = in_parts(rt.alloc(), if timed { 1_000 } else { 4 })?;
    let mut reading = AsTrace {
        text: text.as_str(),
    };
    time_once(
        rt,
        "a start file of 64 MB in parts, read",
        &mut reading,
        0.5,
        timed,
    )
}

/// Plans and lists the states of renamed directories, makes them, and keeps them.
fn move_directories(
    rt: &(impl Clock + Files + Print + AllocGlobal),
    timed: bool,
) -> io::Result<()> {
    let text = renamed(rt.alloc(), if timed { 512 } else { 8 })?;
    let mut planning = Planning {
        text: text.as_str(),
    };
    let what = "states of renamed directories, planned and listed";
    time_once(rt, what, &mut planning, 1.0, timed)?;
    let Some(scene) = scene(rt.alloc(), text.as_str(), true) else {
        return println!(rt; "no plan");
    };
    let total = keep_states(rt, "kept", scene, 10.0, timed)?;
    let figure = (total.seconds(), "s");
    print_figure(rt, "made", total.done(), figure, Bound::AtMost(1.0), timed)
}

/// Times what only traces of version 4 have.
pub fn fourth_version(
    rt: &(impl Clock + Files + Print + AllocGlobal),
    timed: bool,
) -> io::Result<()> {
    read_parts(rt, timed)?;
    move_directories(rt, timed)
}
