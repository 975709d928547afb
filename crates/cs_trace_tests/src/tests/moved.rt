//! States of traces that move directories.
use super::compared::states_are_plain;
use super::lines::HEADER;

const THIRD: &str =
    r#"{"trace":3,"profile":"blocks","block":4096,"owner":"cat","group":"staff","mode":"775"}"#;

const DIR_D: &str = r#"{"start":"dir","path":"/d","owner":"ann","group":"staff","mode":"755"}"#;

const DIR_DE: &str = r#"{"start":"dir","path":"/d/e","owner":"ann","group":"staff","mode":"750"}"#;

const FILE_DEX: &str =
    r#"{"start":"file","path":"/d/e/x","owner":"bob","group":"bob","mode":"644","text":"old"}"#;

const FILE_F: &str =
    r#"{"start":"file","path":"/f","owner":"cat","group":"staff","mode":"644","text":"o"}"#;

const LINK_S: &str =
    r#"{"start":"symlink","path":"/d/s","owner":"cat","group":"staff","target":"e/x"}"#;

/// A directory comes before another one, and then behind it: the numbers of what is below change.
#[test]
fn a_directory_moves_up_and_down(rt: HostRuntime) {
    let up = r#"{"op":"rename","from":"/d/e","to":"/a"}"#;
    let creat = r#"{"op":"creat","path":"/a/y","owner":"eve","group":"eve","mode":"600"}"#;
    let write = r#"{"op":"write","path":"/a/x","offset":1,"text":"new"}"#;
    let down = r#"{"op":"rename","from":"/a","to":"/d/z"}"#;
    let last = r#"{"op":"unlink","path":"/d/z/x"}"#;
    let start = [HEADER, DIR_D, DIR_DE, FILE_DEX, LINK_S, FILE_F];
    let lines = [
        start[0], start[1], start[2], start[3], start[4], start[5], up, creat, write, down, last,
    ];
    states_are_plain(&rt, rt.alloc(), &lines, 8);
}

/// A directory that is removed leaves its path to one that moves there.
#[test]
fn a_path_is_one_directory_and_then_another(rt: HostRuntime) {
    let unlink = r#"{"op":"unlink","path":"/d/e/x"}"#;
    let rmdir = r#"{"op":"rmdir","path":"/d/e"}"#;
    let mkdir = r#"{"op":"mkdir","path":"/m","owner":"eve","group":"eve","mode":"700"}"#;
    let symlink = r#"{"op":"symlink","path":"/m/x","owner":"eve","group":"eve","target":"to"}"#;
    let rename = r#"{"op":"rename","from":"/m","to":"/d/e"}"#;
    let chmod = r#"{"op":"chmod","path":"/d/e","mode":"711"}"#;
    let lines = [
        HEADER, DIR_D, DIR_DE, FILE_DEX, LINK_S, unlink, rmdir, mkdir, symlink, rename, chmod,
    ];
    states_are_plain(&rt, rt.alloc(), &lines, 8);
}

/// In an earlier version, a directory that is made again has its number again.
#[test]
fn a_directory_is_made_again_in_an_earlier_version(rt: HostRuntime) {
    let unlink = r#"{"op":"unlink","path":"/d/e/x"}"#;
    let rmdir = r#"{"op":"rmdir","path":"/d/e"}"#;
    let mkdir = r#"{"op":"mkdir","path":"/d/e","owner":"eve","group":"eve","mode":"700"}"#;
    let creat = r#"{"op":"creat","path":"/d/e/b","owner":"eve","group":"eve","mode":"600"}"#;
    let chown = r#"{"op":"chown","path":"/d/e","owner":"eve","group":"dan"}"#;
    let rename = r#"{"op":"rename","from":"/f","to":"/d/e/x"}"#;
    let lines = [
        THIRD, DIR_D, DIR_DE, FILE_DEX, FILE_F, unlink, rmdir, mkdir, creat, chown, rename,
    ];
    states_are_plain(&rt, rt.alloc(), &lines, 8);
}
