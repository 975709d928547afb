//! The micro-operations that operations break into.
use super::broken_up::{JOURNAL, has_steps};
use super::lines::HEADER;
use std::alloc::{AllocError, Global};
use std::process::Abort;

const FILE: &str =
    r#"{"start":"file","path":"/f","owner":"cat","group":"staff","mode":"644","length":5000,"parts":[{"at":0,"text":"x"}]}"#;

const THIRD: &str =
    r#"{"trace":3,"profile":"blocks","block":4096,"owner":"cat","group":"staff","mode":"775"}"#;

/// A line that writes so many bytes to the file.
fn write_line(alloc: Global, offset: u32, count: u32) -> Result<String, AllocError> {
    let mut line = format!(in alloc; r#"{{"op":"write","path":"/f","offset":{offset},"text":""#)?;
    for _ in 0..count {
        line.push('y')?;
    }
    line.push_str("\"}")?;
    Ok(line)
}

fn writes(rt: &impl Abort, alloc: Global, file: &str, offset: u32, count: u32, wanted: &[&str]) {
    let line = write_line(alloc, offset, count).expect(rt, "memory");
    has_steps(rt, alloc, &[HEADER, file, line.as_str()], wanted);
}

/// A truncate zeroes the rest of its block first.
#[test]
fn a_truncate_zeroes_what_it_cuts_off(rt: HostRuntime) {
    let cut = r#"{"op":"truncate","path":"/f","length":1}"#;
    let steps = ["write_block 0 0 1 4095", "change_file_size 0 1"];
    has_steps(&rt, rt.alloc(), &[HEADER, FILE, cut], &steps);
    let even = r#"{"op":"truncate","path":"/f","length":4096}"#;
    has_steps(
        &rt,
        rt.alloc(),
        &[HEADER, FILE, even],
        &["change_file_size 0 4096"],
    );
    let longer = r#"{"op":"truncate","path":"/f","length":6000}"#;
    has_steps(
        &rt,
        rt.alloc(),
        &[HEADER, FILE, longer],
        &["change_file_size 0 6000"],
    );
    let plain =
        r#"{"start":"file","path":"/f","owner":"cat","group":"staff","mode":"644","text":"abc"}"#;
    has_steps(
        &rt,
        rt.alloc(),
        &[THIRD, plain, cut],
        &["change_file_size 0 1"],
    );
}

/// A file that grows past the page of its end grows in two steps.
#[test]
fn a_file_grows_in_two_steps(rt: HostRuntime) {
    let steps = [
        "change_file_size 0 8192",
        "change_file_size 0 9000",
        "write_block 0 1 904 3192",
        "write_block 0 2 0 808",
    ];
    writes(&rt, rt.alloc(), FILE, 5000, 4000, &steps);
    let behind = [
        "change_file_size 0 8192",
        "change_file_size 0 9000",
        "write_block 0 1 3904 192",
        "write_block 0 2 0 808",
    ];
    writes(&rt, rt.alloc(), FILE, 8000, 1000, &behind);
}

/// One that is empty, or ends with a page, grows in one.
#[test]
fn a_file_of_whole_pages_grows_in_one_step(rt: HostRuntime) {
    let page =
        r#"{"start":"file","path":"/f","owner":"cat","group":"staff","mode":"644","length":4096,"parts":[]}"#;
    let steps = [
        "change_file_size 0 9000",
        "write_block 0 1 3904 192",
        "write_block 0 2 0 808",
    ];
    writes(&rt, rt.alloc(), page, 8000, 1000, &steps);
    let empty =
        r#"{"start":"file","path":"/f","owner":"cat","group":"staff","mode":"644","text":""}"#;
    writes(&rt, rt.alloc(), empty, 8000, 1000, &steps);
}

/// A rename of a file into another directory is two halves under `blocks`, and one step in a
/// journal.
#[test]
fn a_rename_into_another_directory_has_two_halves(rt: HostRuntime) {
    let dir = r#"{"start":"dir","path":"/d","owner":"cat","group":"staff","mode":"755"}"#;
    let lines = [
        dir,
        r#"{"op":"creat","path":"/f","owner":"cat","group":"staff","mode":"644"}"#,
        r#"{"op":"rename","from":"/f","to":"/d/g"}"#,
        r#"{"op":"say","text":"1"}"#,
    ];
    let [dir, creat, rename, say] = lines;
    let halves = [
        "create_dir_entry /f file",
        "link_dir_entry /d/g 0",
        "delete_dir_entry /f",
        "say",
    ];
    has_steps(&rt, rt.alloc(), &[HEADER, dir, creat, rename, say], &halves);
    let whole = ["create_dir_entry /f file", "move_dir_entry /f /d/g", "say"];
    has_steps(&rt, rt.alloc(), &[JOURNAL, dir, creat, rename, say], &whole);
}
