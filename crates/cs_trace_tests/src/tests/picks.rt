//! Which sets of micro-operations file systems of each profile may leave.
use super::broken_up::{JOURNAL, has_picks};
use super::lines::HEADER;
use cs_trace::Profile::{Blocks, Journal, Ordered};

const FILE_G: &str =
    r#"{"start":"file","path":"/g","owner":"cat","group":"staff","mode":"644","text":"o"}"#;

const FILE_F: &str =
    r#"{"start":"file","path":"/f","owner":"cat","group":"staff","mode":"644","text":"o"}"#;

const FILE_H: &str =
    r#"{"start":"file","path":"/h","owner":"cat","group":"staff","mode":"644","text":"o"}"#;

const DIR_D: &str = r#"{"start":"dir","path":"/d","owner":"cat","group":"staff","mode":"755"}"#;

const CREAT_A: &str = r#"{"op":"creat","path":"/a","owner":"cat","group":"staff","mode":"644"}"#;

const CREAT_F: &str = r#"{"op":"creat","path":"/f","owner":"cat","group":"staff","mode":"644"}"#;

const WRITE_G: &str = r#"{"op":"write","path":"/g","offset":0,"text":"x"}"#;

const FSYNC_A: &str = r#"{"op":"fsync","path":"/a"}"#;

const FSYNC_G: &str = r#"{"op":"fsync","path":"/g"}"#;

const FDATASYNC_G: &str = r#"{"op":"fdatasync","path":"/g"}"#;

const FSYNC_ROOT: &str = r#"{"op":"fsync","path":"/"}"#;

const F_TO_G: &str = r#"{"op":"rename","from":"/f","to":"/g"}"#;

const SAY: &str = r#"{"op":"say","text":"1"}"#;

/// A fresh fsync forces the log of a journal.
#[test]
fn a_fresh_fsync_forces_the_log(rt: HostRuntime) {
    let picks = [
        (&[1, 2][..], Blocks, true),
        (&[1, 2][..], Ordered, true),
        (&[1, 2][..], Journal, false),
    ];
    let lines = [HEADER, FILE_G, CREAT_A, WRITE_G, FSYNC_G, SAY];
    has_picks(&rt, rt.alloc(), &lines, &picks);
    let data = [HEADER, FILE_G, CREAT_A, WRITE_G, FDATASYNC_G, SAY];
    has_picks(&rt, rt.alloc(), &data, &[(&[1, 2][..], Journal, true)]);
}

/// An fsync of a file that nothing changed since the last one isn't fresh.
#[test]
fn a_second_fsync_forces_no_log(rt: HostRuntime) {
    let lines = [HEADER, FILE_G, WRITE_G, FSYNC_G, CREAT_A, FSYNC_G, SAY];
    let picks = [
        (&[0, 2][..], Blocks, true),
        (&[0, 2][..], Ordered, true),
        (&[0, 2][..], Journal, true),
    ];
    has_picks(&rt, rt.alloc(), &lines, &picks);
}

/// A rename of a directory needs the directory, and not what is in it.
#[test]
fn a_directory_is_renamed_without_what_is_in_it(rt: HostRuntime) {
    let mkdir = r#"{"op":"mkdir","path":"/t","owner":"cat","group":"staff","mode":"755"}"#;
    let creat = r#"{"op":"creat","path":"/t/x","owner":"cat","group":"staff","mode":"644"}"#;
    let write = r#"{"op":"write","path":"/t/x","offset":0,"text":"m"}"#;
    let fsync = r#"{"op":"fsync","path":"/t/x"}"#;
    let whole = r#"{"op":"fsync","path":"/t"}"#;
    let rename = r#"{"op":"rename","from":"/t","to":"/d"}"#;
    let last = r#"{"op":"creat","path":"/d/y","owner":"cat","group":"staff","mode":"644"}"#;
    let lines = [HEADER, mkdir, creat, write, fsync, rename, last];
    let picks = [
        (&[0, 2, 3, 4][..], Blocks, true),
        (&[0, 2, 3, 5][..], Blocks, true),
    ];
    has_picks(&rt, rt.alloc(), &lines, &picks);
    let synced = [HEADER, mkdir, creat, write, fsync, whole, rename, last];
    has_picks(
        &rt,
        rt.alloc(),
        &synced,
        &[(&[0, 2, 3, 4][..], Blocks, false)],
    );
}

/// Renames of directories keep their order.
#[test]
fn moves_of_directories_keep_their_order(rt: HostRuntime) {
    let lines = [
        HEADER,
        r#"{"op":"mkdir","path":"/a","owner":"cat","group":"staff","mode":"755"}"#,
        r#"{"op":"mkdir","path":"/b","owner":"cat","group":"staff","mode":"755"}"#,
        r#"{"op":"rename","from":"/a","to":"/b/a"}"#,
        r#"{"op":"rename","from":"/b","to":"/c"}"#,
    ];
    let picks = [
        (&[0, 1, 3][..], Blocks, false),
        (&[0, 1, 2][..], Blocks, true),
    ];
    has_picks(&rt, rt.alloc(), &lines, &picks);
}

/// An fdatasync covers no chmod.
#[test]
fn an_fdatasync_covers_no_chmod(rt: HostRuntime) {
    let chmod = r#"{"op":"chmod","path":"/f","mode":"600"}"#;
    let write = r#"{"op":"write","path":"/f","offset":0,"text":"x"}"#;
    let data = r#"{"op":"fdatasync","path":"/f"}"#;
    let fsync = r#"{"op":"fsync","path":"/f"}"#;
    let without = [(&[0, 2, 3, 4][..], Blocks, true)];
    has_picks(
        &rt,
        rt.alloc(),
        &[HEADER, CREAT_F, chmod, write, data, SAY],
        &without,
    );
    let with = [(&[0, 2, 3, 4][..], Blocks, false)];
    has_picks(
        &rt,
        rt.alloc(),
        &[HEADER, CREAT_F, chmod, write, fsync, SAY],
        &with,
    );
}

/// Only a file system that keeps no order leaves a half of a rename alone.
#[test]
fn a_half_alone_is_left_by_blocks(rt: HostRuntime) {
    let rename = r#"{"op":"rename","from":"/f","to":"/d/g"}"#;
    let fsync = r#"{"op":"fsync","path":"/d"}"#;
    let creat = r#"{"op":"creat","path":"/d/x","owner":"cat","group":"staff","mode":"644"}"#;
    let lines = [HEADER, DIR_D, FILE_F, rename, fsync, creat, FSYNC_ROOT, SAY];
    let picks = [
        (&[0, 1, 3][..], Blocks, true),
        (&[0, 1, 3][..], Ordered, true),
        (&[0, 1, 3][..], Journal, true),
        (&[0, 2][..], Blocks, true),
        (&[0, 2][..], Ordered, false),
        (&[0, 2][..], Journal, false),
        (&[0, 2, 3][..], Blocks, false),
    ];
    has_picks(&rt, rt.alloc(), &lines, &picks);
}

/// In a journal an fsync of a new, empty file forces what is before it, though it covers nothing.
#[test]
fn an_fsync_of_an_empty_file_forces_the_log(rt: HostRuntime) {
    let lines = [JOURNAL, FILE_F, F_TO_G, CREAT_A, FSYNC_A, SAY];
    let picks = [
        (&[2][..], Journal, false),
        (&[0, 2][..], Journal, false),
        (&[2][..], Ordered, true),
        (&[0, 2][..], Ordered, true),
    ];
    has_picks(&rt, rt.alloc(), &lines, &picks);
    let data = r#"{"op":"fdatasync","path":"/a"}"#;
    let same = [(&[2][..], Journal, false), (&[0, 2][..], Journal, false)];
    has_picks(
        &rt,
        rt.alloc(),
        &[JOURNAL, FILE_F, F_TO_G, CREAT_A, data, SAY],
        &same,
    );
    let synced = [
        JOURNAL,
        FILE_F,
        CREAT_A,
        r#"{"op":"sync"}"#,
        F_TO_G,
        FSYNC_A,
        SAY,
    ];
    has_picks(&rt, rt.alloc(), &synced, &[(&[0, 2][..], Journal, true)]);
}

/// In a journal an fsync of a renamed file forces the renames before it; an fdatasync doesn't.
#[test]
fn an_fsync_of_a_renamed_file_forces_the_log(rt: HostRuntime) {
    let h_to_k = r#"{"op":"rename","from":"/h","to":"/k"}"#;
    let lines = [JOURNAL, FILE_F, FILE_H, h_to_k, F_TO_G, FSYNC_G, SAY];
    let picks = [
        (&[0, 1, 2][..], Journal, true),
        (&[0, 2][..], Journal, false),
        (&[1, 2][..], Journal, false),
        (&[2][..], Journal, false),
    ];
    has_picks(&rt, rt.alloc(), &lines, &picks);
    let data = [JOURNAL, FILE_F, FILE_H, h_to_k, F_TO_G, FDATASYNC_G, SAY];
    has_picks(&rt, rt.alloc(), &data, &[(&[2][..], Journal, true)]);
}
