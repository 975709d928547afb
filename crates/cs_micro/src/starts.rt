//! The paths of the files and symbolic links at the start of a trace.
ghost use Rattle.std.specs.Prelude.{◌≡◌, ℕ, List, ◌∷◌, [], ◌<◌, length, map, IfOk, IsErr};
ghost use Rattle.std.specs.FinMap.{get};
ghost use Rattle.cs_trace.specs.Traces.{IsFileNumbered, start_paths};
ghost use Rattle.cs_micro.specs.Micros.{paths_of_files};

use cs_names::Path;
use cs_trace::Trace;
use std::alloc::{AllocError, Global};

/// For each file at the start, by its number, a list of one path: that of its start line. The
/// contract also says that the number of each file at the start is below how many there are.
#[tactic(auto, using(crate::proofs::Linking::numbers_below))]
fn own_paths(alloc: Global, trace: &Trace) -> Result<Vec<Vec<Path>>, AllocError>
    ensures value { IfOk result (λ starts. map (λ paths. paths.items) starts.items
        ≡ map (λ path. path ∷ []) trace.now.files) }
    ensures numbered { (file : ℕ) (p : List (List ℕ))
        → IsFileNumbered file (get (start_paths trace.now) p) → file < length trace.now.files }
    ensures memory { IsErr result → 0 < length trace.now.files }
{
    let mut starts = Vec::new(alloc);
    for file in 0..trace.file_count() {
        let Some(place) = trace.file_place(file) else {
            unreachable!()
        };
        let path = trace.records().path_of(alloc, place)?;
        let mut paths = Vec::new(alloc);
        paths.push(path)?;
        starts.push(paths)?;
    }
    Ok(starts)
}

/// The paths of each file at the start, in the order of the files' numbers: that of its start line,
/// and then those of the start lines that link it, in their order.
pub fn paths_of_files(alloc: Global, trace: &Trace) -> Result<Vec<Vec<Path>>, AllocError>
    ensures value { IfOk result (λ starts. map (λ paths. paths.items) starts.items
        ≡ paths_of_files trace.now.files trace.now.links) }
    ensures memory { IsErr result → 0 < length trace.now.files }
{
    let mut starts = own_paths(alloc, trace)?;
    for (path, file) in trace.links() {
        starts[*file as usize].push(path.try_clone(alloc)?)?;
    }
    Ok(starts)
}
