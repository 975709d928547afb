//! Paths: how they are read and written, their names, and their order.

use super::printing::prints;
use cs_names::{Name, NameFault, Path};
use std::alloc::Global;
use std::process::Abort;

/// How many names the path has that the text spells.
fn count_of(alloc: Global, text: &str) -> Result<usize, NameFault> {
    Ok(Path::read(alloc, text)?.names().len())
}

fn equals_its_copy(alloc: Global, path: &Path) -> bool {
    match path.try_clone(alloc) {
        Ok(copy) => copy == *path,
        Err(_) => false,
    }
}

fn is_written_back(alloc: Global, text: &str) -> bool {
    match Path::read(alloc, text) {
        Ok(path) => prints(alloc, &path, text) && equals_its_copy(alloc, &path),
        Err(_) => false,
    }
}

/// A text, and how many names its path has, or why it is none.
struct Spelled(&'static str, Result<usize, NameFault>);

const PATHS: [Spelled; 8] = [
    Spelled("/", Ok(0)),
    Spelled("/q", Ok(1)),
    Spelled("/d/s/z", Ok(3)),
    Spelled("", Err(NameFault::Forbidden)),
    Spelled("q", Err(NameFault::Forbidden)),
    Spelled("/q//r", Err(NameFault::Empty)),
    Spelled("/q/", Err(NameFault::Empty)),
    Spelled("/q/../\0", Err(NameFault::Forbidden)),
];

fn assert_path(rt: &(impl Abort + AllocGlobal), text: &str, count: Result<usize, NameFault>) {
    assert_eq!(rt; Path::check(text), count, "{text}");
    assert_eq!(rt; count_of(rt.alloc(), text), count, "{text}");
    assert_eq!(rt; is_written_back(rt.alloc(), text), count.is_ok(), "{text}");
}

/// `/`, `/q` and `/d/s/z` are read and written back. `q` is Forbidden, `/q//r` and `/q/` are Empty.
#[test]
fn reads_paths_and_writes_them_back(rt: HostRuntime) {
    for path in &PATHS {
        assert_path(&rt, path.0, path.1);
    }
}

/// Whether the path ends with that name, the rest is the path of its directory, and both make the
/// path again.
fn is_parted(alloc: Global, path: &Path, directory: &str, name: &str) -> Option<bool> {
    let (above, last) = path.names().split_last()?;
    let above = Path::of(alloc, &above).ok()?;
    Some(
        last == name
            && prints(alloc, &above, directory)
            && path.begins_with(&above)
            && above.child(alloc, last).ok()? == *path
            && above.names() == path.names().parent(),
    )
}

fn names_of(alloc: Global, path: &Path) -> Option<Vec<Name>> {
    let mut names = Vec::new(alloc);
    for name in path.names() {
        names.push(Name::read(alloc, name.as_bytes()).ok()?).ok()?;
    }
    Some(names)
}

/// Whether the path's names make it again.
fn is_made_again(alloc: Global, path: &Path) -> Option<bool> {
    let names = names_of(alloc, path)?;
    Some(Path::from_names(alloc, &names).ok()? == *path)
}

/// `/d/s!/z` is parted into `/d/s!`, with which it begins, and `z`; it doesn't begin with `/d/s`.
/// Its names make it again.
#[test]
fn parts_a_path_into_its_directory_and_its_last_name(rt: HostRuntime) {
    let path = Path::read(rt.alloc(), "/d/s!/z").expect(&rt, "a path");
    assert!(rt; is_parted(rt.alloc(), &path, "/d/s!", "z") == Some(true));
    let other = Path::read(rt.alloc(), "/d/s").expect(&rt, "a path");
    assert!(rt; !path.begins_with(&other));
    assert!(rt; is_made_again(rt.alloc(), &path) == Some(true));
    assert!(rt; Path::root(rt.alloc()).names().parent().is_empty());
}

fn assert_before(rt: &(impl Abort + AllocGlobal), first: &str, second: &str) {
    let first = Path::read(rt.alloc(), first).expect(rt, "a path");
    let second = Path::read(rt.alloc(), second).expect(rt, "a path");
    assert!(rt; first < second);
}

/// `/d` comes before `/d/s`, and that before `/d!`.
#[test]
fn orders_a_directory_before_what_it_has(rt: HostRuntime) {
    assert_before(&rt, "/d", "/d/s");
    assert_before(&rt, "/d/s", "/d!");
}
