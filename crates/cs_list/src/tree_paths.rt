//! The paths of a trace's files after its first micro-operations. `paths` remembers which path a
//! file got first; the entries show that it still leads to the file.
ghost use Rattle.std.specs.Prelude.{◌≡◌, IfOk, IfSome, OnOk};
ghost use Rattle.cs_trace.specs.Traces.{start_table};
ghost use Rattle.cs_apm.specs.States.{entries_after};
ghost use Rattle.cs_list.specs.Paths.{LeadsToChanged};

use crate::entries::{apply, start_entries};
use crate::paths::FilePaths;
use cs_entries::{Directories, Node};
use cs_micro::MicroOp;
use cs_names::Path;
use cs_plan::Scene;
use cs_same_states::changed_file;
use std::alloc::{AllocError, Global};
use std::marker::Model;

/// What each entry holds after the first micro-operations, and the paths of each file. Contracts
/// see what the entries hold.
#[derive(Drop)]
pub struct TreePaths<'a> {
    /// What each entry holds: a node, or nothing.
    held: Directories,
    /// The paths of each file, the oldest first.
    paths: FilePaths<'a>,
}

impl<'a> Model for TreePaths<'a> {
    ghost use Rattle.cs_entries.specs.Directories.{coded_table};
    ghost use Rattle.cs_entries.specs.Tables.{Table};

    ghost Value = { Table };

    ghost coded = { coded_table };

    ghost view = { λ tree. tree.held };
}

impl<'a> TreePaths<'a> {
    /// Those at the start of the scene's trace, before its first micro-operation. The error is out
    /// of memory.
    pub fn of(alloc: Global, scene: &'a Scene) -> Result<TreePaths<'a>, AllocError>
        ensures { IfOk result (λ paths. paths ≡ start_table scene.now.trace) }
    {
        Ok(TreePaths {
            held: start_entries(alloc, scene)?,
            paths: FilePaths::of(alloc, scene.micros())?,
        })
    }

    /// The oldest path of the file whose size, block or rights the micro-operation changes. None if
    /// it changes no file, or one that has no path any more.
    pub fn path_of_changed_file(&self, op: &MicroOp) -> Option<&Path>
        ensures { IfSome result (λ path. LeadsToChanged self.now op.now path.now) }
    {
        let changed = changed_file(op)?;
        let path = self.paths.path_of_file(changed)?;
        match self.held.at(path.names()) {
            Some(Node::File(_, file)) if file == changed => Some(path),
            // a path that is remembered leads to its file
            _ => None,
        }
    }

    /// Changes what the entries hold, and the paths, as the next micro-operation does. The error is
    /// out of memory; they must not be used then.
    pub fn apply(&mut self, alloc: Global, op: &'a MicroOp) -> Result<(), AllocError>
        ensures { OnOk result (self.new ≡ entries_after self.old op.now) }
    {
        apply(alloc, &mut self.held, op)?;
        self.paths.apply(alloc, op)
    }
}
