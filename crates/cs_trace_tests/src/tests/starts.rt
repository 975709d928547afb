//! Files, symbolic links and directories at the start.
use super::lines::{HEADER, trace_of};
use cs_names::Path;
use cs_trace::{FileKind, Node};

const LINES: [&str; 5] = [
    HEADER,
    r#"{"start":"symlink","path":"/l","owner":"cat","group":"staff","target":"u/v"}"#,
    r#"{"start":"dir","path":"/b","owner":"cat","group":"staff","mode":"755"}"#,
    r#"{"start":"file","path":"/b/w","owner":"cat","group":"staff","mode":"644","length":9,"parts":[{"at":2,"text":"abc"}]}"#,
    r#"{"start":"link","path":"/a","from":"/b/w"}"#,
];

/// The records are in the order of their paths, with the nodes that their lines gave them.
#[test]
fn records_are_in_the_order_of_paths(rt: HostRuntime) {
    let alloc = rt.alloc();
    let trace = trace_of(&rt, alloc, &LINES);
    let nodes = [
        Node::Directory(0),
        Node::File(FileKind::Regular, 1),
        Node::Directory(1),
        Node::File(FileKind::Regular, 1),
        Node::File(FileKind::Symlink, 0),
    ];
    assert_eq!(rt; trace.nodes(), nodes.as_slice());
    assert_eq!(rt; trace.records().len(), 5);
    let paths = ["/", "/a", "/b", "/b/w", "/l"];
    for (place, wanted) in paths.iter().enumerate() {
        assert!(rt; place < trace.records().len());
        let path = trace.records().path_of(alloc, place).expect(&rt, "memory");
        let wanted = Path::read(alloc, wanted).expect(&rt, "a path");
        assert!(rt; path == wanted, "{path}");
    }
}

/// A file in parts has zeros between them; a symbolic link has its target, and its bit.
#[test]
fn contents_are_those_of_the_lines(rt: HostRuntime) {
    let alloc = rt.alloc();
    let trace = trace_of(&rt, alloc, &LINES);
    let records = trace.records();
    assert_eq!(rt; records.len(), 5);
    let whole: &[u8] = b"\0\0abc\0\0\0\0";
    assert!(rt; records.content(3).bytes() == Some(whole));
    assert!(rt; records.content(1).bytes() == Some(whole));
    let target: &[u8] = b"u/v";
    assert!(rt; records.content(4).bytes() == Some(target));
    assert_eq!(rt; records.metadata(4).mode, 0x0200_01FF);
    assert_eq!(rt; records.metadata(0).mode, 0x8000_01FD);
}
