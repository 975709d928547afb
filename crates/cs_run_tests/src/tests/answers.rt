//! Answers in words.

use cs_fids::Place;
use cs_run::{Answer, Data, Walk};
use cs_wire::Stat;
use std::process::Abort;

/// Adds how far a walk got: the qids as `number.version`, and the rule that stopped it, if any.
fn push_walk(rt: &impl Abort, text: &mut String, walk: &Walk) {
    write!(text, "at {}:", walk.last()).expect(rt, "memory");
    for qid in walk.qids() {
        write!(text, " {}.{}", qid.path, qid.vers).expect(rt, "memory");
    }
    match walk.stopped() {
        Some(rule) => write!(text, " stopped by {}", rule.text()).expect(rt, "memory"),
        None => {},
    }
}

/// Adds the fields of a stat: name, mode, version, length, mtime, owner, group and muid.
fn push_stat(rt: &impl Abort, text: &mut String, stat: &Stat) {
    write!(
        text,
        "{} {:o} version {}",
        stat.name, stat.mode, stat.qid.vers
    )
    .expect(rt, "memory");
    write!(text, " length {} at {}", stat.length, stat.mtime).expect(rt, "memory");
    write!(text, " of {} {} by {}", stat.uid, stat.gid, stat.muid).expect(rt, "memory")
}

/// Adds the result of a read: bytes of a file between quotes, or how many bytes of entries; and
/// keeps the new place.
fn push_given(rt: &impl Abort, text: &mut String, data: Data, place: &mut Place) {
    let (bytes, next) = data.into_parts();
    let Some(next) = next else {
        let bytes = std::str::from_utf8(&bytes).expect(rt, "a text");
        write!(text, "'{bytes}'").expect(rt, "memory");
        return;
    };
    let last = next.last.as_ref().expect(rt, "a value");
    write!(text, "{} bytes to {} at {last}", bytes.len(), next.end).expect(rt, "memory");
    *place = next;
}

/// Adds the answer, and keeps the new place of a read of a directory.
pub fn push_answer(rt: &impl Abort, text: &mut String, answer: Answer, place: &mut Place) {
    match answer {
        Answer::Attached(qid) => {
            write!(text, "root {:x} {}.{}", qid.kind, qid.path, qid.vers).expect(rt, "memory")
        }
        Answer::Walked(walk) => push_walk(rt, text, &walk),
        Answer::Opened {
            qid,
            open_number,
            number,
        } => write!(
            text,
            "open {open_number} of {number}: {}.{}",
            qid.path, qid.vers
        )
        .expect(rt, "memory"),
        Answer::Data(data) => push_given(rt, text, data, place),
        Answer::Written(count) => write!(text, "wrote {count}").expect(rt, "memory"),
        Answer::Closed => text.push_str("closed").expect(rt, "memory"),
        Answer::Removed => text.push_str("removed").expect(rt, "memory"),
        Answer::Stat(stat) => push_stat(rt, text, &stat.into_stat()),
        Answer::Changed => text.push_str("changed").expect(rt, "memory"),
        Answer::Denied(rule) => text.push_str(rule.text()).expect(rt, "memory"),
        Answer::Short => text.push_str("short of memory").expect(rt, "memory"),
    }
}
