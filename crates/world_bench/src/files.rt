//! The users and the trees of the worlds.

use cs_plan::Scene;
use cs_trace::read_trace;
use cs_users::Users;
use std::alloc::Global;

/// How many bytes the file has.
const FILE_LENGTH: usize = 1_048_576;

/// The one user, ann. None if memory runs out.
pub fn users(alloc: Global) -> Option<Users> {
    Users::read(alloc, b"1:ann::\n").ok()
}

/// A trace's root with a directory and a file, up to the file's bytes.
const TRACE: &str = "{\"trace\":1,\"owner\":\"ann\",\"group\":\"ann\",\"mode\":\"755\"}
{\"start\":\"dir\",\"path\":\"/d\",\"owner\":\"ann\",\"group\":\"ann\",\"mode\":\"755\"}
{\"start\":\"file\",\"path\":\"/f\",\"owner\":\"ann\",\"group\":\"ann\",\"mode\":\"644\",\"bytes\":\"";

/// The trace's text, with so many operations that make a file. None if memory runs out.
fn trace_text(alloc: Global, creats: u32) -> Option<String> {
    let mut text = String::from_str(alloc, TRACE).ok()?;
    for _ in 0..FILE_LENGTH {
        text.push_str("07").ok()?;
    }
    text.push_str("\"}\n").ok()?;
    for i in 0..creats {
        let line = format!(in alloc;
            "{{\"op\":\"creat\",\"path\":\"/d/n{i}\",\"owner\":\"ann\",\"group\":\"ann\",\"mode\":\"644\"}}\n"
        );
        text.push_str(line.ok()?.as_str()).ok()?;
    }
    Some(text)
}

/// The states of that trace, with holes too; with no creat there is one state. None if memory runs
/// out.
pub fn scene(alloc: Global, creats: u32) -> Option<Scene> {
    let text = trace_text(alloc, creats)?;
    let trace = read_trace(alloc, text.as_str()).ok()?;
    Scene::of(alloc, trace, true, Vec::new(alloc)).ok()
}
