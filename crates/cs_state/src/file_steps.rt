//! Which micro-operations of a trace change a file, and which of its pages. A file's bytes before
//! any change are here, too.
ghost use Rattle.std.specs.Prelude.{◌≡◌, ◌+◌, ◌/◌, ◌<◌, ◌≤◌, ◌^◌, ℕ, true, None, Some, length};
ghost use Rattle.std.specs.Prelude.{slice_get, slice_index_or, IfOk, IsSome, OnOk};
ghost use Rattle.std.specs.BTreeMap.{get};
ghost use Rattle.std.specs.List.{All};
ghost use Rattle.std.specs.Ordering.{nat_cmp};
ghost use Rattle.cs_apm.specs.Atlases.{content_before, content_made, AreMakings, AreStarts};
ghost use Rattle.cs_apm.specs.Contents.{IsSmall, changes_file};
ghost use Rattle.cs_apm.specs.Rules.{op_at};
ghost use Rattle.cs_apm.specs.States.{content_of_bytes, files_made, no_content};
ghost use Rattle.cs_state.specs.Shares.{numbers_that_pass};
ghost use Rattle.cs_state.specs.Steps.{reaches, places_reaching, resizes, row_at, size_before};
ghost use Rattle.cs_state.specs.Steps.{AreAllSteps, AreFileSteps, AreRows, HasRow};
ghost use Rattle.cs_state.specs.Windows.{size_after};

use cs_apm::tables::Tables;
use cs_micro::MicroOp;
use cs_paths::passing::push_if;
use cs_trace::Trace;
use std::alloc::{AllocError, Global};
use std::collections::BTreeMap;

/// How many bytes a page has, whatever the size of a block. Files are read by pages, and no write
/// into a block crosses the end of a page, since the size of a block divides that of a page.
pub const PAGE_BYTES: u64 = 4_096;

/// The places of the micro-operations that change a file, in several lists, each ascending. One
/// makes the file shorter if it sets a smaller size than the file has after all before it.
#[derive(Debug, Drop)]
pub struct FileSteps {
    /// The places of those that change its size.
    pub size_changes: Vec<u32>,
    /// The places of those that make it shorter: only these reach a page that none writes into.
    pub cuts: Vec<u32>,
    /// For each page that one writes into, by its number: the places of those that write into it
    /// or make the file shorter.
    pub pages: BTreeMap<u64, Vec<u32>>,
}

/// The file's size in bytes after a micro-operation: the size that it sets, if it sets this file's,
/// and if not, `size`, the size before it. `size_after_op` in `reaching` of cs_same_states has the
/// same body.
pub fn size_after(file: usize, size: u64, op: &MicroOp) -> u64
    ensures { result ≡ size_after file size op.now }
{
    match op {
        MicroOp::ChangeFileSize {
            file: other,
            length,
        } => {
            if *other as usize == file {
                *length
            } else {
                size
            }
        }
        _ => size,
    }
}

/// Whether the micro-operation is a change of the size of the file.
fn resizes(file: usize, op: &MicroOp) -> bool
    ensures { result ≡ resizes file op.now }
{
    match op {
        MicroOp::ChangeFileSize { file: other, .. } => *other as usize == file,
        _ => false,
    }
}

/// Whether the micro-operation makes its file shorter than `size`, or writes into the page with
/// this number. If `page` is None, no write counts. The file's number isn't looked at: callers pass
/// only changes of one file.
fn reaches(page: Option<u64>, size: u64, op: &MicroOp) -> bool
    requires { IsSmall op.now }
    ensures { result ≡ reaches page size op.now }
{
    match op {
        MicroOp::ChangeFileSize { length, .. } => *length < size,
        MicroOp::WriteBlock { start, at, .. } => page == Some((*start + *at) / PAGE_BYTES),
        _ => false,
    }
}

/// Whether the micro-operation changes the size or the bytes of the file: as `changes_file` of
/// cs_apm, but with the file's number as a usize. Change both together.
fn writes_or_resizes(file: usize, op: &MicroOp) -> bool
    ensures { result ≡ changes_file file op.now }
{
    match op {
        MicroOp::ChangeFileSize { file: other, .. } | MicroOp::WriteBlock { file: other, .. } => {
            *other as usize == file
        }
        _ => false,
    }
}

/// The size of the file before each micro-operation of the trace, if all before it are members, in
/// bytes. `start` is its size before any change.
fn sizes_before(
    alloc: Global,
    file: usize,
    start: u64,
    ops: &[MicroOp],
) -> Result<Vec<u64>, AllocError>
    ensures long { IfOk result (λ sizes. length sizes.items ≡ length ops.now) }
    ensures each { IfOk result
        (λ sizes. (k : ℕ) → k < length ops.now
        → slice_index_or sizes.items k 0 ≡ size_before file start ops.now k) }
{
    let mut sizes = Vec::new(alloc);
    let mut size = start;
    for op in ops {
        sizes.push(size)?;
        size = size_after(file, size, op);
    }
    Ok(sizes)
}

/// The places of the micro-operations that change the size of the file, ascending.
fn resizing_places(alloc: Global, file: usize, ops: &[MicroOp]) -> Result<Vec<u32>, AllocError>
    requires { length ops.now < 2 ^ 20 }
    ensures { IfOk result
        (λ places. places.items
        ≡ numbers_that_pass (λ k. resizes file (op_at ops.now k)) (length ops.now)) }
{
    let mut places = Vec::new(alloc);
    for place in 0..ops.len() {
        push_if(&mut places, place, resizes(file, &ops[place]))?;
    }
    Ok(places)
}

/// The places of the micro-operations that change the size or the bytes of the file, ascending.
fn changing_places(alloc: Global, file: usize, ops: &[MicroOp]) -> Result<Vec<u32>, AllocError>
    requires { length ops.now < 2 ^ 20 }
    ensures { IfOk result
        (λ places. places.items
        ≡ numbers_that_pass (λ k. changes_file file (op_at ops.now k)) (length ops.now)) }
{
    let mut places = Vec::new(alloc);
    for place in 0..ops.len() {
        push_if(&mut places, place, writes_or_resizes(file, &ops[place]))?;
    }
    Ok(places)
}

/// Those of the places whose micro-operations write into the page with this number, or make the
/// file shorter. If `page` is None, no write counts. `sizes` has the file's size before each
/// micro-operation of the trace, and the places are of changes of the file.
fn places_reaching(
    alloc: Global,
    page: Option<u64>,
    sizes: &[u64],
    ops: &[MicroOp],
    places: &[u32],
) -> Result<Vec<u32>, AllocError>
    requires few { length ops.now < 2 ^ 20 }
    requires small { All IsSmall ops.now }
    requires long { length sizes.now ≡ length ops.now }
    requires inside { All (λ place. place < length ops.now) places.now }
    ensures { IfOk result
        (λ found. found.items ≡ places_reaching sizes.now ops.now places.now page) }
{
    let mut found = Vec::new(alloc);
    for place in places {
        let place = *place as usize;
        push_if(&mut found, place, reaches(page, sizes[place], &ops[place]))?;
    }
    Ok(found)
}

/// Adds the row of the page with this number: those of the places that write into the page, or make
/// the file shorter. If the page has a row, nothing changes. After an error no row was added.
/// (`add_file_row` and `add_directory_row` of `owner_steps` have the same body.)
fn add_page_row(
    alloc: Global,
    rows: &mut BTreeMap<u64, Vec<u32>>,
    page: u64,
    sizes: &[u64],
    ops: &[MicroOp],
    places: &[u32],
) -> Result<(), AllocError>
    requires few { length ops.now < 2 ^ 20 }
    requires small { All IsSmall ops.now }
    requires long { length sizes.now ≡ length ops.now }
    requires inside { All (λ place. place < length ops.now) places.now }
    ensures each { OnOk result
        (AreRows sizes.now ops.now places.now (get nat_cmp rows.old)
        → AreRows sizes.now ops.now places.now (get nat_cmp rows.new)) }
    ensures keeps { OnOk result
        ((other : ℕ) → IsSome (get nat_cmp rows.old other) → IsSome (get nat_cmp rows.new other)) }
    ensures there { OnOk result (IsSome (get nat_cmp rows.new page)) }
{
    if rows.contains_key(&page) {
        return Ok(());
    }
    let row = places_reaching(alloc, Some(page), sizes, ops, places)?;
    rows.insert(page, row)?;
    Ok(())
}

/// For each page that a micro-operation at one of the places writes into, by the page's number: the
/// places of those that write into it or make the file shorter.
fn page_rows(
    alloc: Global,
    sizes: &[u64],
    ops: &[MicroOp],
    places: &[u32],
) -> Result<BTreeMap<u64, Vec<u32>>, AllocError>
    requires few { length ops.now < 2 ^ 20 }
    requires small { All IsSmall ops.now }
    requires long { length sizes.now ≡ length ops.now }
    requires inside { All (λ place. place < length ops.now) places.now }
    ensures each { IfOk result (λ rows. AreRows sizes.now ops.now places.now (get nat_cmp rows)) }
    ensures written { IfOk result
        (λ rows. All (λ place. HasRow (get nat_cmp rows) (op_at ops.now place)) places.now) }
{
    let mut rows = BTreeMap::new(alloc);
    for place in places {
        if let MicroOp::WriteBlock { start, at, .. } = &ops[*place as usize] {
            let page = (*start + *at) / PAGE_BYTES;
            add_page_row(alloc, &mut rows, page, sizes, ops, places)?;
        }
    }
    Ok(rows)
}

impl FileSteps {
    /// The steps of a file that no micro-operation changes: no places, and no row for any page.
    fn empty(alloc: Global) -> FileSteps {
        FileSteps {
            size_changes: Vec::new(alloc),
            cuts: Vec::new(alloc),
            pages: BTreeMap::new(alloc),
        }
    }

    /// The places of the micro-operations that change the file with this number, which has `start`
    /// bytes before any change.
    fn of(
        alloc: Global,
        file: usize,
        start: usize,
        ops: &[MicroOp],
    ) -> Result<FileSteps, AllocError>
        requires few { length ops.now < 2 ^ 20 }
        requires small { All IsSmall ops.now }
        ensures { IfOk result (AreFileSteps file start ops.now) }
    {
        let sizes = sizes_before(alloc, file, start as u64, ops)?;
        let places = changing_places(alloc, file, ops)?;
        let cuts = places_reaching(alloc, None, &sizes, ops, &places)?;
        let pages = page_rows(alloc, &sizes, ops, &places)?;
        let size_changes = resizing_places(alloc, file, ops)?;
        Ok(FileSteps {
            size_changes,
            cuts,
            pages,
        })
    }

    /// The places of the micro-operations that write into the page with this number, or make the
    /// file shorter. If none writes into the page, only those that make the file shorter.
    pub fn row(&self, page: u64) -> &[u32]
        ensures { result.now ≡ row_at self.now page }
    {
        match self.pages.get(&page) {
            Some(row) => row,
            None => &self.cuts,
        }
    }
}

/// The bytes with which the micro-operation makes a symbolic link: its target. Empty if it makes
/// anything else, or nothing: a new file has no bytes. (Private functions in `files` of cs_apm and
/// in `starts` of cs_same_states have the same body.)
fn bytes_made(op: &MicroOp) -> &[u8]
    ensures { content_of_bytes result.now ≡ content_made op.now }
{
    match op {
        MicroOp::CreateDirEntry { bytes, .. } => bytes.as_slice(),
        _ => &[],
    }
}

/// The bytes with which a file that isn't there at the start is made; empty if no micro-operation
/// makes it. `number` counts only such files, from 0, and `makings` has the place of the making of
/// each. (`starts` of cs_same_states has the same body.)
fn made_bytes<'a>(ops: &'a [MicroOp], makings: &[u32], number: usize) -> &'a [u8]
    requires { AreMakings ops.now makings.now }
    ensures { result.now ≡ (slice_index_or (files_made ops.now) number no_content).bytes }
{
    match makings.get(number) {
        None => &[],
        Some(place) => bytes_made(&ops[*place as usize]),
    }
}

/// The bytes of the file before any change: those at the start, or those with which it is made, a
/// symbolic link's target. Empty if the trace has no such file. The tables are those of the trace.
/// `start_bytes` of cs_same_states has the same body; `file_before` of cs_apm copies these bytes.
pub fn start_bytes<'a>(
    trace: &'a Trace,
    ops: &'a [MicroOp],
    tables: &Tables,
    file: usize,
) -> &'a [u8]
    requires starts { AreStarts trace.now tables.now.starts.items }
    requires makings { AreMakings ops.now tables.now.makings.items }
    ensures { result.now ≡ (content_before trace.now ops.now file).bytes }
{
    let starts = &tables.starts;
    if file >= starts.len() {
        return made_bytes(ops, &tables.makings, file - starts.len());
    }
    let content = trace.records().content(starts[file] as usize);
    content.bytes().unwrap_or(&[])
}

/// The places of the micro-operations that change the file; no places if `tables.changed` says that
/// none does.
fn steps_of_file(
    alloc: Global,
    trace: &Trace,
    ops: &[MicroOp],
    tables: &Tables,
    file: usize,
) -> Result<FileSteps, AllocError>
    requires few { length ops.now < 2 ^ 20 }
    requires small { All IsSmall ops.now }
    requires starts { AreStarts trace.now tables.now.starts.items }
    requires makings { AreMakings ops.now tables.now.makings.items }
    requires known { file < length tables.now.changed.items }
    ensures { IfOk result
        (λ steps. slice_get tables.now.changed.items file ≡ Some true
        → AreFileSteps file (length (content_before trace.now ops.now file).bytes) ops.now steps) }
{
    if !tables.changed[file] {
        return Ok(FileSteps::empty(alloc));
    }
    let start = start_bytes(trace, ops, tables, file);
    let steps = FileSteps::of(alloc, file, start.len(), ops)?;
    Ok(steps)
}

/// For each file and symbolic link of the trace, by its number, the places of the micro-operations
/// that change it.
pub fn all_steps(
    alloc: Global,
    trace: &Trace,
    ops: &[MicroOp],
    tables: &Tables,
) -> Result<Vec<FileSteps>, AllocError>
    requires few { length ops.now < 2 ^ 20 }
    requires small { All IsSmall ops.now }
    requires starts { AreStarts trace.now tables.now.starts.items }
    requires makings { AreMakings ops.now tables.now.makings.items }
    ensures { IfOk result
        (λ all. AreAllSteps trace.now ops.now tables.now.changed.items all.items) }
{
    let mut all = Vec::new(alloc);
    for file in 0..tables.changed.len() {
        all.push(steps_of_file(alloc, trace, ops, tables, file)?)?;
    }
    Ok(all)
}
