//! A trace: the tree at its start, and its operations.
ghost use Rattle.std.specs.Prelude.{◌≡◌, ◌≢◌, ◌≤◌, ◌<◌, ℕ, List, Some, IfErr, IfOk, IfSome, Ok};
ghost use Rattle.std.specs.Prelude.{Err};
ghost use Rattle.std.specs.Prelude.{length, map, option_map, slice_get};
ghost use Rattle.std.specs.FinMap.{get};
ghost use Rattle.std.specs.List.{All};
ghost use Rattle.std.specs.List.Sorted.{IsStrictlySortedBy};
ghost use Rattle.cs_entries.specs.Legal.{IsTree};
ghost use Rattle.cs_entries.specs.Tables.{AreNested, held_in};
ghost use Rattle.cs_names.specs.declared.limits.TheConstants.{TREE_RECORDS};
ghost use Rattle.cs_tree_model.specs.Listing.{IsListing};
ghost use Rattle.cs_tree_model.specs.Tree.{path_cmp};
ghost use Rattle.cs_trace.specs.Checks.{IsFaultOf};
ghost use Rattle.cs_trace.specs.Kept.{state_of};
ghost use Rattle.cs_trace.specs.Limits.{most_bytes};
ghost use Rattle.cs_trace.specs.States.{lines_in};
ghost use Rattle.cs_trace.specs.Traces.{AreLegalFromStart, AreLinks, AreRecordsOf, IsFileNumbered};
ghost use Rattle.cs_trace.specs.Traces.{IsPathOf, IsTrace, MayWant, StandsAs, path_at, record_in};
ghost use Rattle.cs_trace.specs.Traces.{records_made, start_paths, start_sizes, start_table};
ghost use Rattle.cs_trace.specs.Traces.{trace_in, trace_of_state};
ghost use Rattle.cs_trace.specs.declared.fault.TraceFaultKind.TheVariants.{Memory};

use crate::fault::{TraceFault, TraceFaultKind};
use crate::lines::{line_count, state_after_lines};
use crate::operation::Operation;
use crate::state::LinesSoFar;
use cs_entries::Node;
use cs_names::Path;
use cs_start::Start;
use cs_trace_lines::Version;
use std::alloc::{AllocError, Global};
use std::marker::Model;

/// A trace that was read whole. Contracts see its start tree and its operations, each of which is
/// legal in what the ones before it leave. It never changes.
#[derive(Drop)]
pub struct Trace {
    /// The records of the start tree, in the order of their paths.
    records: Start,
    /// What each record is, in the same order: a directory, a file or a symbolic link by its
    /// number.
    nodes: Vec<Node>,
    /// For each file and symbolic link at the start, by its number, the place of the record of the
    /// path that it was made at.
    places: Vec<usize>,
    /// The further paths of the start's files, in the order of their lines, each with the file's
    /// number.
    links: Vec<(Path, u32)>,
    /// The operations, in the order of their lines.
    operations: Vec<Operation>,
    /// The version of the header, with its profile and the size of its blocks.
    version: Version,
}

impl Model for Trace {
    ghost use Rattle.std.specs.Prelude.{map};
    ghost use Rattle.cs_trace.specs.Traces as model;

    ghost Value = { model.Trace };

    ghost view = { λ trace. record {
      records = trace.records;
      nodes = trace.nodes.items;
      files = map (model.path_at trace.records) trace.places.items;
      links = trace.links.items;
      operations = trace.operations.items;
      version = trace.version;
    } };

    ghost invariant = { λ trace. model.IsTrace (record {
      records = trace.records;
      nodes = trace.nodes.items;
      files = map (model.path_at trace.records) trace.places.items;
      links = trace.links.items;
      operations = trace.operations.items;
      version = trace.version;
    }) };
}

impl Trace {
    /// The start tree: its records with their paths, in the order of the paths, the root's first.
    /// Each is numbered by its place there, from 0.
    pub fn records(&self) -> &Start
        ensures value { result.now ≡ self.now.records }
        ensures listing { IsListing self.now.records }
        ensures ascending { IsStrictlySortedBy path_cmp (map (λ e. e.0) self.now.records) }
        ensures few { length self.now.records ≤ TREE_RECORDS }
    {
        &self.records
    }

    /// The node of each record, in the order of the records: a directory, a file or a symbolic link
    /// by its number.
    pub fn nodes(&self) -> &[Node]
        ensures value { result.now ≡ self.now.nodes }
        ensures each { length self.now.nodes ≡ length self.now.records }
        ensures kinds { AreRecordsOf self.now.nodes self.now.records }
        ensures stands { (p : List (List ℕ))
            → StandsAs (get (start_paths self.now) p) (record_in self.now.records p) }
    {
        &self.nodes
    }

    /// How many files and symbolic links there are at the start. Their numbers are those from 0 on,
    /// in the order of their lines. A file with several paths counts once.
    pub fn file_count(&self) -> usize
        ensures value { result ≡ length self.now.files }
        ensures numbered { (n : ℕ) (p : List (List ℕ)) → slice_get self.now.files n ≡ Some p
            → IsFileNumbered n (get (start_paths self.now) p) }
        ensures found { (n : ℕ) (p : List (List ℕ))
            → IsFileNumbered n (get (start_paths self.now) p) → IsPathOf self.now n p }
        ensures small { All (λ size. size ≤ most_bytes self.now.version) (start_sizes self.now) }
    {
        self.places.len()
    }

    /// The place, among `records`, of the path that the start's file or symbolic link of this
    /// number was made at; None if the start has no such file. A file with further paths (`links`)
    /// has a record at each; these records differ only in their paths and numbers.
    pub fn file_place(&self, file: usize) -> Option<usize>
        ensures value { option_map (path_at self.now.records) result
            ≡ slice_get self.now.files file }
        ensures inside { IfSome result (λ place. place < length self.now.records) }
    {
        let place = *self.places.get(file)?;
        Some(place)
    }

    /// The further paths of the start's files, in the order of their lines, each with the file's
    /// number.
    pub fn links(&self) -> &[(Path, u32)]
        ensures value { result.now ≡ self.now.links }
        ensures linked { AreLinks (start_paths self.now) self.now.links }
    {
        &self.links
    }

    /// The operations, in the order of their lines. Callers that need the laws in this contract
    /// call it by `know`.
    pub fn operations(&self) -> &[Operation]
        ensures value { result.now ≡ self.now.operations }
        ensures nested { AreNested (start_paths self.now) }
        ensures tree { IsTree (held_in (start_table self.now)) }
        ensures legal { AreLegalFromStart self.now }
        ensures few { records_made self.now ≤ TREE_RECORDS }
    {
        &self.operations
    }

    /// The version of the trace, with its profile (what the file system keeps in order) and the
    /// size of its blocks.
    pub fn version(&self) -> Version
        ensures value { result ≡ self.now.version }
    {
        self.version
    }
}

/// Makes the trace of the state after the last line. The caller has checked that there was a
/// header. If memory runs out for the lists of the start, nothing is left.
fn trace_of_state(alloc: Global, state: LinesSoFar) -> Result<Trace, AllocError>
    requires { IsTrace (trace_of_state (state_of state)) }
    ensures { IfOk result (λ trace. trace ≡ trace_of_state (state_of state)) }
{
    let lists = state.start.into_lists(alloc, state.file_count)?;
    Ok(Trace {
        records: lists.records,
        nodes: lists.nodes,
        places: lists.places,
        links: state.links,
        operations: state.operations,
        version: state.version,
    })
}

/// The trace that a text spells, or the fault of its first line that has one.
///
/// Lines end at line feeds and are counted from 1; lines of only JSON's blanks are skipped. The
/// first other line is the header, which gives the root; start lines follow, each of which gives a
/// file or a directory, after the line of its parent; and then operations:
///
/// ```text
/// {"trace":1,"owner":O,"group":G,"mode":M}
/// {"start":"dir","path":P,"owner":O,"group":G,"mode":M}
/// {"start":"file","path":P,"owner":O,"group":G,"mode":M,"bytes":H}
/// {"op":"creat","path":P,"owner":O,"group":G,"mode":M}
/// {"op":"mkdir","path":P,"owner":O,"group":G,"mode":M}
/// {"op":"unlink","path":P}
/// {"op":"rmdir","path":P}
/// {"op":"rename","from":P,"to":P}
/// {"op":"write","path":P,"offset":N,"bytes":H}
/// {"op":"truncate","path":P,"length":N}
/// {"op":"fsync","path":P}
/// {"op":"sync"}
/// {"op":"say","text":T}
/// ```
///
/// Version 2 has another header, in which F is `blocks` or `ordered`, and two more operations; a
/// chmod leaves owner and group as they are, and a chown the mode:
///
/// ```text
/// {"trace":2,"profile":F,"owner":O,"group":G,"mode":M}
/// {"op":"chmod","path":P,"mode":M}
/// {"op":"chown","path":P,"owner":O,"group":G}
/// ```
///
/// Version 3 has the lines of version 2, another header, and three more lines. B is 512, 1024, 2048
/// or 4096; a start line of a file and a write may have `"text":T` in place of `bytes`, whose bytes
/// are those of T in UTF-8; and any line may have a `"note":T`, which is ignored:
///
/// ```text
/// {"trace":3,"profile":F,"block":B,"owner":O,"group":G,"mode":M}
/// {"start":"link","path":P,"from":P}
/// {"op":"link","from":P,"to":P}
/// {"op":"fsync_range","path":P,"offset":N,"length":N}
/// ```
///
/// A link is one more path of the file at `from`. What is done by one path of a file is done to the
/// file. An unlink removes one of its paths, and a rename from one path of a file to another does
/// nothing.
///
/// Version 4 has the lines of version 3, with directories that may be renamed, files of up to 1
/// GiB, and `journal` as a third F. A start line of a file may have `"length":N` and a list of
/// parts in place of `bytes`. A part has `text` or `bytes`; parts ascend, aren't empty, don't
/// overlap, and end at the length at the latest. A byte that no part has is zero:
///
/// ```text
/// {"trace":4,"profile":F,"block":B,"owner":O,"group":G,"mode":M}
/// {"start":"file","path":P,"owner":O,"group":G,"mode":M,"length":N,"parts":[{"at":N,"bytes":H}]}
/// {"start":"symlink","path":P,"owner":O,"group":G,"target":T}
/// {"op":"symlink","path":P,"owner":O,"group":G,"target":T}
/// {"op":"fdatasync","path":P}
/// ```
///
/// The target of a symbolic link has 1 to 4,095 bytes without NUL, and its permissions are 777.
/// Nothing is looked up through it. A directory may be renamed onto itself, which does nothing, or
/// over an empty directory, but not below itself.
///
/// The keys may be in any order, with no others. P has a name after each `/`, and may be `/` only
/// for an fsync, a chmod and a chown; O and G are the names of a user and a group; M is three octal
/// digits, H is hexadecimal, N a whole number below 2^64, and T any text. A text without a header
/// is Syntax at line 1. Each line is checked in the state after the lines before it.
///
/// The fault is that of the first bad line, by the first check that the line fails. If memory runs
/// out, the fault is of kind Memory, and no line before it is bad. Its line is the one that was
/// being read, or the last one if all were read and the start's records were being made.
pub fn read_trace(alloc: Global, text: &str) -> Result<Trace, TraceFault>
    ensures done { IfOk result (λ trace. trace_in text.now ≡ Ok trace) }
    ensures fault { IfErr result (λ fault. fault.kind ≢ Memory
        → trace_in text.now ≡ Err fault) }
    ensures first { IfErr result (λ fault. fault.kind ≢ Memory
        → IsFaultOf (lines_in text.now) fault) }
    ensures memory { IfErr result (λ fault. fault.kind ≡ Memory
        → MayWant (lines_in text.now) fault.line) }
{
    let state = state_after_lines(alloc, text)?;
    if state.made == 0 {
        return Err(TraceFault {
            line: 1,
            kind: TraceFaultKind::Syntax,
        });
    }
    let Ok(trace) = trace_of_state(alloc, state) else {
        return Err(TraceFault {
            line: line_count(text),
            kind: TraceFaultKind::Memory,
        });
    };
    Ok(trace)
}
