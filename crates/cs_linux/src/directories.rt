//! The fids of a connection that may be on directories: a rename looks for its file in them.
ghost use Rattle.std.specs.Prelude.{◌≡◌, ◌<◌, ◌≤◌, ◌+◌, ◌-◌, ◌^◌, [], ◌∷◌, ◌++◌, drop, min};
ghost use Rattle.arrayvec.specs.ArrayVec.{array_vec_len};
ghost use Rattle.cs_linux.specs.Directories.{came_to_directory};

use crate::requests::is_directory_qid;
use arrayvec::ArrayVec;
use cs_wire::{RBody, TBody};

/// The most fids that are kept. A rename may try each of them by a walk.
pub const KEPT_FIDS: usize = 16;

/// The fid that a walk made, if it may be on a directory (walk(5)). Either the walk found all of
/// its names, and the last is a directory; or it had no name, so that the fid is a copy of another.
/// None after any other walk, and for every other request or reply.
pub fn directory_of(request: &TBody<'_>, reply: &RBody) -> Option<u32>
    ensures { result ≡ came_to_directory request.now reply.now }
{
    let TBody::Walk { newfid, wname, .. } = request else {
        return None;
    };
    let RBody::Walk { wqid } = reply else {
        return None;
    };
    if wqid.len() != wname.len() {
        return None;
    }
    match wqid.last() {
        Some(qid) if !is_directory_qid(*qid) => None,
        _ => Some(*newfid),
    }
}

/// What a rename must know of a connection's earlier requests: its fids that may be on directories,
/// and how often it attached.
#[derive(Drop)]
pub struct Directories {
    /// The latest such fids, the latest last. One may be there twice. By now one may be on another
    /// file, or clunked: a walk from it doesn't find the file then.
    pub fids: ArrayVec<u32, KEPT_FIDS>,
    /// How many attaches were granted. After two, the fids may be of two users, or in two runs.
    pub attaches: u32,
}

impl Directories {
    /// No fids and no attach, as when a session begins. It takes no memory.
    pub fn new() -> Directories
        ensures fids { result.fids.items ≡ [] }
        ensures attaches { result.attaches ≡ 0 }
    {
        Directories {
            fids: ArrayVec::new(),
            attaches: 0,
        }
    }

    /// Counts an attach that was granted. The count stops at the greatest u32: only whether it is
    /// above 1 matters.
    pub fn count_attach(&mut self)
        ensures fids { self.new.fids ≡ self.old.fids }
        ensures counted { self.new.attaches ≡ min (self.old.attaches + 1) (2 ^ 32 - 1) }
    {
        self.attaches = self.attaches.saturating_add(1);
    }

    /// Adds a fid as the latest, even if it is there already. If there is no room the oldest is
    /// dropped.
    pub fn add(&mut self, fid: u32)
        ensures room { array_vec_len self.old.fids < KEPT_FIDS
            → self.new.fids.items ≡ self.old.fids.items ++ fid ∷ [] }
        ensures full { array_vec_len self.old.fids ≡ KEPT_FIDS
            → self.new.fids.items ≡ drop 1 self.old.fids.items ++ fid ∷ [] }
        ensures attaches { self.new.attaches ≡ self.old.attaches }
    {
        if self.fids.is_full() {
            self.fids.remove(0);
        }
        self.fids.push(fid);
    }

    /// The fids that a rename may try, the latest last: all of them, or none after a second attach.
    pub fn of_one_attach(&self) -> &[u32]
        ensures one { self.now.attaches ≤ 1 → result.now ≡ self.now.fids.items }
        ensures more { 1 < self.now.attaches → result.now ≡ [] }
    {
        if self.attaches <= 1 {
            self.fids.as_slice()
        } else {
            &[]
        }
    }
}
