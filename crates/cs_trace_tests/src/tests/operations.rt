//! Operations by the numbers of directories and files.
use super::lines::HEADER;
use super::shown::has_operations;

const MKDIR_T: &str = r#"{"op":"mkdir","path":"/t","owner":"cat","group":"staff","mode":"755"}"#;

/// A renamed directory keeps its number, and what is in it.
#[test]
fn a_renamed_directory_keeps_its_number(rt: HostRuntime) {
    let lines = [
        HEADER,
        MKDIR_T,
        r#"{"op":"creat","path":"/t/x","owner":"cat","group":"staff","mode":"644"}"#,
        r#"{"op":"write","path":"/t/x","offset":0,"text":"m"}"#,
        r#"{"op":"fsync","path":"/t/x"}"#,
        r#"{"op":"rename","from":"/t","to":"/d"}"#,
        r#"{"op":"creat","path":"/d/y","owner":"cat","group":"staff","mode":"644"}"#,
        r#"{"op":"fdatasync","path":"/d/x"}"#,
        MKDIR_T,
        r#"{"op":"fsync","path":"/d"}"#,
    ];
    let wanted = [
        "mkdir 0:/t 1",
        "creat 1:/t/x 0",
        "write 0 0 0",
        "fsync 0",
        "rename 0:/t 0:/d dir 1",
        "creat 1:/d/y 1",
        "fdatasync 0",
        "mkdir 0:/t 2",
        "fsync dir 1 /d",
    ];
    has_operations(&rt, rt.alloc(), &lines, &wanted);
}

/// In the third version a directory that is made again at a path has the number it had.
#[test]
fn before_the_fourth_version_a_path_has_one_number(rt: HostRuntime) {
    let lines = [
        r#"{"trace":3,"profile":"blocks","block":4096,"owner":"cat","group":"staff","mode":"775"}"#,
        r#"{"start":"dir","path":"/a","owner":"cat","group":"staff","mode":"755"}"#,
        MKDIR_T,
        r#"{"op":"mkdir","path":"/t/u","owner":"cat","group":"staff","mode":"755"}"#,
        r#"{"op":"rmdir","path":"/t/u"}"#,
        r#"{"op":"rmdir","path":"/t"}"#,
        r#"{"op":"mkdir","path":"/b","owner":"cat","group":"staff","mode":"755"}"#,
        MKDIR_T,
        r#"{"op":"mkdir","path":"/t/u","owner":"cat","group":"staff","mode":"755"}"#,
    ];
    let wanted = [
        "mkdir 0:/t 2",
        "mkdir 2:/t/u 3",
        "rmdir 2:/t/u 3",
        "rmdir 0:/t 2",
        "mkdir 0:/b 4",
        "mkdir 0:/t 2",
        "mkdir 2:/t/u 3",
    ];
    has_operations(&rt, rt.alloc(), &lines, &wanted);
}

/// A directory replaces an empty one; a rename to itself, or to another path of the same file, does
/// nothing.
#[test]
fn renames_replace_or_do_nothing(rt: HostRuntime) {
    let lines = [
        HEADER,
        r#"{"start":"dir","path":"/a","owner":"cat","group":"staff","mode":"755"}"#,
        r#"{"start":"dir","path":"/b","owner":"cat","group":"staff","mode":"755"}"#,
        r#"{"start":"file","path":"/a/f","owner":"cat","group":"staff","mode":"644","text":"o"}"#,
        r#"{"op":"link","from":"/a/f","to":"/g"}"#,
        r#"{"op":"rename","from":"/a/f","to":"/g"}"#,
        r#"{"op":"rename","from":"/a","to":"/b"}"#,
        r#"{"op":"rename","from":"/b","to":"/b"}"#,
        r#"{"op":"rename","from":"/g","to":"/b/f"}"#,
        r#"{"op":"unlink","path":"/g"}"#,
        r#"{"op":"rename","from":"/b/f","to":"/f"}"#,
        r#"{"op":"rmdir","path":"/b"}"#,
    ];
    let wanted = [
        "link 0:/g 0",
        "rename 0:/g 0:/g file 0 over file 0",
        "rename 0:/a 0:/b dir 1 over dir 2",
        "rename 0:/b 0:/b dir 1 over dir 1",
        "rename 1:/b/f 1:/b/f file 0 over file 0",
        "unlink 0:/g 0",
        "rename 1:/b/f 0:/f file 0",
        "rmdir 0:/b 1",
    ];
    has_operations(&rt, rt.alloc(), &lines, &wanted);
}

/// A symbolic link has the number of a file, and may be renamed over.
#[test]
fn a_symbolic_link_is_renamed_as_a_file(rt: HostRuntime) {
    let lines = [
        HEADER,
        r#"{"start":"symlink","path":"/l","owner":"cat","group":"staff","target":"t"}"#,
        r#"{"op":"symlink","path":"/m","owner":"cat","group":"staff","target":"u/v"}"#,
        r#"{"op":"rename","from":"/m","to":"/l"}"#,
        r#"{"op":"chown","path":"/l","owner":"ann","group":"staff"}"#,
        r#"{"op":"unlink","path":"/l"}"#,
    ];
    let wanted = [
        "symlink 0:/m 1",
        "rename 0:/m 0:/l symlink 1 over symlink 0",
        "set file 1",
        "unlink 0:/l 1",
    ];
    has_operations(&rt, rt.alloc(), &lines, &wanted);
}

/// A write and a truncate know the size before them, also of a start file in parts.
#[test]
fn sizes_are_those_before_the_line(rt: HostRuntime) {
    let lines = [
        HEADER,
        r#"{"start":"file","path":"/w","owner":"cat","group":"staff","mode":"644","length":64000,"parts":[{"at":63990,"text":"abc"}]}"#,
        r#"{"op":"write","path":"/w","offset":0,"text":"x"}"#,
        r#"{"op":"truncate","path":"/w","length":1073741824}"#,
        r#"{"op":"truncate","path":"/w","length":1}"#,
    ];
    let wanted = [
        "write 0 64000 0",
        "truncate 0 64000 1073741824",
        "truncate 0 1073741824 1",
    ];
    has_operations(&rt, rt.alloc(), &lines, &wanted);
}
