//! Lines at fault, after others.
use super::lines::{HEADER, text_of};
use cs_trace::{TraceFault, TraceFaultKind, read_trace};
use std::alloc::Global;
use std::process::Abort;

/// A fault, and lines that have it.
struct Faulty {
    kind: TraceFaultKind,
    lines: &'static [&'static str],
}

/// Each line, after these, has its fault.
fn are_faults(rt: &impl Abort, alloc: Global, before: &[&str], faults: &[Faulty]) {
    for faulty in faults {
        for line in faulty.lines {
            let mut text = text_of(alloc, before).expect(rt, "memory");
            text.push_str(line).expect(rt, "memory");
            let found = read_trace(alloc, text.as_str()).err();
            let wanted = TraceFault {
                line: before.len() + 1,
                kind: faulty.kind,
            };
            assert!(rt; found == Some(wanted), "{line}: {found:?}");
        }
    }
}

const TREE: [&str; 9] = [
    HEADER,
    r#"{"start":"dir","path":"/a","owner":"cat","group":"staff","mode":"755"}"#,
    r#"{"start":"dir","path":"/b","owner":"cat","group":"staff","mode":"755"}"#,
    r#"{"start":"dir","path":"/b/c","owner":"cat","group":"staff","mode":"755"}"#,
    r#"{"start":"file","path":"/f","owner":"cat","group":"staff","mode":"644","text":"o"}"#,
    r#"{"start":"symlink","path":"/l","owner":"cat","group":"staff","target":"a"}"#,
    r#"{"op":"mkdir","path":"/t","owner":"cat","group":"staff","mode":"755"}"#,
    r#"{"op":"rename","from":"/a","to":"/b/a"}"#,
    r#"{"op":"rename","from":"/b","to":"/e"}"#,
];

/// What is at `/e` was at `/b`, and what is at `/e/a` was at `/a`.
const FAULTS: [Faulty; 7] = [
    Faulty {
        kind: TraceFaultKind::BadName,
        lines: &[
            r#"{"op":"rename","from":"/e","to":"/e/d"}"#,
            r#"{"op":"rename","from":"/e","to":"/e/a/d"}"#,
            r#"{"op":"rename","from":"/e","to":"/e/a"}"#,
            r#"{"op":"rename","from":"/","to":"/d"}"#,
            r#"{"op":"fdatasync","path":"/"}"#,
        ],
    },
    Faulty {
        kind: TraceFaultKind::Missing,
        lines: &[
            r#"{"op":"rename","from":"/b","to":"/e/d"}"#,
            r#"{"op":"rename","from":"/a","to":"/no/d"}"#,
            r#"{"op":"unlink","path":"/l/x"}"#,
            r#"{"op":"fdatasync","path":"/x"}"#,
        ],
    },
    Faulty {
        kind: TraceFaultKind::NoParent,
        lines: &[
            r#"{"op":"rename","from":"/e","to":"/a/d"}"#,
            r#"{"op":"rename","from":"/e","to":"/e/x/d"}"#,
            r#"{"op":"creat","path":"/l/x/y","owner":"cat","group":"staff","mode":"644"}"#,
        ],
    },
    Faulty {
        kind: TraceFaultKind::NotDir,
        lines: &[
            r#"{"op":"rename","from":"/e","to":"/f"}"#,
            r#"{"op":"rename","from":"/e","to":"/l"}"#,
            r#"{"op":"rename","from":"/e","to":"/l/x"}"#,
            r#"{"op":"creat","path":"/l/x","owner":"cat","group":"staff","mode":"644"}"#,
            r#"{"op":"rmdir","path":"/l"}"#,
        ],
    },
    Faulty {
        kind: TraceFaultKind::NotFile,
        lines: &[
            r#"{"op":"rename","from":"/f","to":"/t"}"#,
            r#"{"op":"rename","from":"/l","to":"/t"}"#,
            r#"{"op":"write","path":"/l","offset":0,"text":"x"}"#,
            r#"{"op":"truncate","path":"/l","length":0}"#,
            r#"{"op":"chmod","path":"/l","mode":"644"}"#,
            r#"{"op":"fsync","path":"/l"}"#,
            r#"{"op":"fdatasync","path":"/l"}"#,
            r#"{"op":"fdatasync","path":"/t"}"#,
            r#"{"op":"fsync_range","path":"/l","offset":0,"length":1}"#,
            r#"{"op":"link","from":"/l","to":"/m"}"#,
        ],
    },
    Faulty {
        kind: TraceFaultKind::NotEmpty,
        lines: &[
            r#"{"op":"rename","from":"/t","to":"/e"}"#,
            r#"{"op":"rmdir","path":"/e"}"#,
        ],
    },
    Faulty {
        kind: TraceFaultKind::TooLarge,
        lines: &[
            r#"{"op":"truncate","path":"/f","length":1073741825}"#,
            r#"{"op":"write","path":"/f","offset":1073741824,"text":"x"}"#,
        ],
    },
];

/// Lines of version 4, behind others, have the faults of its page.
#[test]
fn each_line_has_its_fault(rt: HostRuntime) {
    are_faults(&rt, rt.alloc(), &TREE, &FAULTS);
}

const THIRD: [&str; 3] = [
    r#"{"trace":3,"profile":"blocks","block":4096,"owner":"cat","group":"staff","mode":"775"}"#,
    r#"{"start":"dir","path":"/a","owner":"cat","group":"staff","mode":"755"}"#,
    r#"{"start":"file","path":"/f","owner":"cat","group":"staff","mode":"644","text":"o"}"#,
];

/// What only the fourth version has.
const EARLIER: [Faulty; 4] = [
    Faulty {
        kind: TraceFaultKind::NotFile,
        lines: &[
            r#"{"op":"rename","from":"/a","to":"/b"}"#,
            r#"{"op":"rename","from":"/a","to":"/a/b"}"#,
        ],
    },
    Faulty {
        kind: TraceFaultKind::TooLarge,
        lines: &[r#"{"op":"truncate","path":"/f","length":16777217}"#],
    },
    Faulty {
        kind: TraceFaultKind::UnknownOp,
        lines: &[
            r#"{"op":"fdatasync","path":"/f"}"#,
            r#"{"start":"symlink","path":"/l","owner":"cat","group":"staff","target":"a"}"#,
        ],
    },
    Faulty {
        kind: TraceFaultKind::Syntax,
        lines: &[
            r#"{"start":"file","path":"/w","owner":"cat","group":"staff","mode":"644","length":1,"parts":[]}"#,
        ],
    },
];

/// In version 3 lines, keys and renames of version 4 are at fault.
#[test]
fn earlier_versions_have_none_of_it(rt: HostRuntime) {
    are_faults(&rt, rt.alloc(), &THIRD, &EARLIER);
}
