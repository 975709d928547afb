//! The paths that each file has after the first micro-operations of a trace. They are kept by the
//! files' numbers, the oldest first, which the entries of a tree don't show. The only error of
//! these functions is out of memory.
use cs_entries::Node;
use cs_entries::entry::copy_name;
use cs_micro::{MicroOp, Micros};
use cs_names::{Name, Path};
use std::alloc::{AllocError, Global};

/// A path of a file: one of the trace's own, or one that the file has since a directory above it
/// was moved.
#[derive(Drop)]
enum FilePath<'a> {
    /// As an operation of the trace, or its start, names it.
    Named(&'a Path),
    /// Made here, when a directory above the file was moved.
    Moved(Path),
}

/// The paths of each file, by its number, the oldest first. A file that was deleted has none.
#[derive(Drop)]
pub struct FilePaths<'a> {
    /// At the place of a file's number, its paths.
    files: Vec<Vec<FilePath<'a>>>,
}

impl<'a> FilePath<'a> {
    /// The path, of whichever kind.
    fn path(&self) -> &Path {
        match self {
            FilePath::Named(path) => path,
            FilePath::Moved(path) => path,
        }
    }
}

/// Replaces each path that is equal to `old` by `new`, in the same place; does nothing if none is.
fn replace<'a>(paths: &mut [FilePath<'a>], old: &Path, new: &'a Path) {
    for path in paths.iter_mut() {
        if path.path() == old {
            *path = FilePath::Named(new);
        }
    }
}

/// Appends copies of a path's names, but for the first `skipped` of them. After an error some of
/// them are appended.
fn push_names(
    alloc: Global,
    path: &Path,
    skipped: usize,
    names: &mut Vec<Name>,
) -> Result<(), AllocError> {
    for name in path.names().skip(skipped) {
        names.push(copy_name(alloc, name)?)?;
    }
    Ok(())
}

/// The path with the names of `to` in place of its first names, which the caller has found to be
/// those of `from`.
fn path_below(alloc: Global, path: &Path, from: &Path, to: &Path) -> Result<Path, AllocError> {
    let mut names = Vec::new(alloc);
    push_names(alloc, to, 0, &mut names)?;
    push_names(alloc, path, from.names().len(), &mut names)?;
    Path::from_names(alloc, &names)
}

/// Gives each path that begins with `from` the names of `to` in place of these. After an error some
/// of the paths have changed.
fn move_below(
    alloc: Global,
    paths: &mut [FilePath<'_>],
    from: &Path,
    to: &Path,
) -> Result<(), AllocError> {
    for path in paths.iter_mut() {
        if path.path().begins_with(from) {
            *path = FilePath::Moved(path_below(alloc, path.path(), from, to)?);
        }
    }
    Ok(())
}

impl<'a> FilePaths<'a> {
    /// The paths of the files with which a trace starts, before its first micro-operation. The
    /// error is out of memory.
    pub fn of(alloc: Global, micros: &'a Micros) -> Result<FilePaths<'a>, AllocError> {
        let mut files = FilePaths {
            files: Vec::new(alloc),
        };
        for paths in micros.starts() {
            files.push_start(alloc, paths)?;
        }
        Ok(files)
    }

    /// Adds the next file of the start, which has these paths. After an error it isn't added.
    fn push_start(&mut self, alloc: Global, paths: &'a [Path]) -> Result<(), AllocError> {
        let mut own = Vec::new(alloc);
        for path in paths {
            own.push(FilePath::Named(path))?;
        }
        self.files.push(own)?;
        Ok(())
    }

    /// Adds the next file that the trace makes, at this path: files are numbered in that order.
    /// After an error it isn't added.
    fn push_made(&mut self, alloc: Global, path: &'a Path) -> Result<(), AllocError> {
        let mut own = Vec::new(alloc);
        own.push(FilePath::Named(path))?;
        self.files.push(own)?;
        Ok(())
    }

    /// The oldest path of the file of the number. None if it has no path, and if there is no such
    /// file.
    pub fn path_of_file(&self, file: u32) -> Option<&Path> {
        let paths = self.files.get(file as usize)?;
        let first = paths.first()?;
        Some(first.path())
    }

    /// Removes the path from the file that has it; does nothing if no file has it.
    fn remove_path(&mut self, gone: &Path) {
        for paths in self.files.iter_mut() {
            paths.retain(|path| path.path() != gone);
        }
    }

    /// Adds a path of a file. Callers know the file to be there already; to another number no path
    /// is added. A file that had the path loses it, also if an error follows.
    fn link_path(&mut self, path: &'a Path, file: u32) -> Result<(), AllocError> {
        self.remove_path(path);
        // a link is of a file that is there already
        if let Some(paths) = self.files.get_mut(file as usize) {
            paths.push(FilePath::Named(path))?;
        }
        Ok(())
    }

    /// Gives the file that has the path `from` the path `to` instead. A file that had the path `to`
    /// loses it, even if no file has the path `from`.
    fn move_path(&mut self, from: &Path, to: &'a Path) {
        self.remove_path(to);
        for paths in self.files.iter_mut() {
            replace(paths, from, to);
        }
    }

    /// Moves all files below the directory at `from` to the same places below `to`. After an error
    /// some of them are moved.
    fn move_directory(&mut self, alloc: Global, from: &Path, to: &Path) -> Result<(), AllocError> {
        for paths in self.files.iter_mut() {
            move_below(alloc, paths, from, to)?;
        }
        Ok(())
    }

    /// Changes the paths as the next micro-operation does. After an error they must not be used.
    pub fn apply(&mut self, alloc: Global, op: &'a MicroOp) -> Result<(), AllocError> {
        match op {
            MicroOp::CreateDirEntry {
                entry,
                node: Node::File(..),
                ..
            } => self.push_made(alloc, &entry.path),
            MicroOp::LinkDirEntry { entry, file, .. } => self.link_path(&entry.path, *file),
            MicroOp::DeleteDirEntry { entry, .. } => {
                self.remove_path(&entry.path);
                Ok(())
            }
            MicroOp::MoveDirEntry {
                from,
                to,
                node: Node::Directory(_),
                ..
            } => self.move_directory(alloc, &from.path, &to.path),
            MicroOp::MoveDirEntry { from, to, .. } => {
                self.move_path(&from.path, &to.path);
                Ok(())
            }
            // no other operation changes a file's paths
            _ => Ok(()),
        }
    }
}
