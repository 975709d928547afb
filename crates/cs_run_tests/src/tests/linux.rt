//! Texts that Linux's client knows, from outside.

use cs_linux::{Errno, reply_to_linux, rule_of};
use cs_names::RuleId;
use cs_wire::{RBody, RMessage};
use std::borrow::CowStr;

/// Whether the client gets the second text instead of the first.
fn is_told_as(text: &'static str, known: &str) -> bool {
    let body = RBody::Error {
        ename: CowStr::Borrowed(text),
    };
    match reply_to_linux(RMessage { tag: 7, body }) {
        RMessage {
            tag: 7,
            body: RBody::Error { ename },
        } => ename.as_str() == known,
        _ => false,
    }
}

/// A text, and the one that the client gets instead.
struct Told(&'static str, &'static str);

const TOLD: [Told; 7] = [
    Told("K8 no such name", "No such file or directory"),
    Told("C9 name exists", "File exists"),
    Told("M5 directory not empty", "Directory not empty"),
    Told("Q12 not owner or leader", "Operation not permitted"),
    Told("out of memory", "Cannot allocate memory"),
    Told("S5 out of turn", "Input/output error"),
    Told("K8", "Input/output error"),
];

/// The client gets K8, C9, M5, Q12, `out of memory`, S5 and the bare text `K8` as seven texts of
/// Linux's table.
#[test]
fn each_text_is_told_as_one_that_linux_knows(rt: HostRuntime) {
    for told in &TOLD {
        assert!(rt; is_told_as(told.0, told.1), "{}", told.0);
    }
}

/// O10 is found by its whole text, and no rule by `O1`; its error is `Text file busy`.
#[test]
fn a_rule_is_found_by_its_whole_text(rt: HostRuntime) {
    assert_eq!(rt; rule_of("O10 exclusive file is open"), Some(RuleId::O10));
    assert_eq!(rt; rule_of("O1"), None);
    assert_eq!(rt; Errno::of(RuleId::O10).text(), "Text file busy");
}

/// Whether the client gets an Rclunk unchanged.
fn clunk_stays() -> bool {
    let reply = reply_to_linux(RMessage {
        tag: 9,
        body: RBody::Clunk,
    });
    matches!(
        reply,
        RMessage {
            tag: 9,
            body: RBody::Clunk
        }
    )
}

/// An Rclunk stays.
#[test]
fn another_reply_stays(rt: HostRuntime) {
    assert!(rt; clunk_stays());
}
