//! What a state has, and how it is read by the entries of directories. Each method asks in
//! `requires` (`IsMade`) that the state is as `Atlas::build` makes it.
ghost use Rattle.std.specs.Prelude.{◌≡◌, ◌≢◌, ◌<◌, ◌≤◌, [], Some, length, IfNone, IfOk, IfSome};
ghost use Rattle.std.specs.Prelude.{IsErr, IsSomeAnd, slice_get};
ghost use Rattle.std.specs.Arc.{arc_value};
ghost use Rattle.std.specs.Option.{option_copied, option_map};
ghost use Rattle.cs_tree_model.specs.Fresh.{fresh_record};
ghost use Rattle.cs_tree_model.specs.Record.{metadata_of_ref, metadata_of};
ghost use Rattle.cs_apm.specs.Slots.{IsKnown, slot_at};
ghost use Rattle.cs_state.specs.Parts.{read_in, record_in};
ghost use Rattle.cs_state.specs.Shares.{number_of_id};
ghost use Rattle.cs_state.specs.States.{IsDirectoryAt, IsMade, IsNoDirectory, IsNodeAt};
ghost use Rattle.cs_state.specs.States.{count_shown, entry_of_id};
ghost use Rattle.cs_state.specs.States.{number_of_directory};
ghost use Rattle.cs_state.specs.States.{number_of_place, number_shown, slots_in};
ghost use Rattle.cs_state.specs.Steps.{members_in};

use crate::kept_ids::KeptIds;
use crate::names::place_of_entry;
use crate::numbers::{Found, Own, found_at_number, number_of};
use crate::parts::Parts;
use crate::reading::{metadata_of, read_node};
use cs_entries::{Entry, Node};
use cs_paths::PathOrder;
use cs_tree_model::Metadata;
use std::alloc::{AllocError, Global};
use std::sync::Arc;

/// The state of a set: what it shares with the others, the members of the set, and the state's own
/// entries. It never changes.
#[derive(Drop)]
pub struct State {
    /// The trace, with what all its states share.
    pub parts: Arc<Parts>,
    /// For each micro-operation, whether it is a member.
    pub members: Vec<bool>,
    /// How many of the trace's moves of directories are members: they are the first so many.
    pub moved: usize,
    /// Each touched entry that holds something in this state, with what it holds, by ascending ids.
    pub own: Vec<Own>,
}

impl State {
    /// The order of the paths that all entries have in this state.
    fn order(&self) -> &PathOrder
        requires { IsMade self.now }
        ensures { slice_get (arc_value self.now.parts).shares.paths.orders.items self.now.moved
            ≡ Some result.now }
    {
        &self.parts.shares.paths.orders[self.moved]
    }

    /// The kept and the touched ids of the order of paths that the state has.
    fn kept_ids(&self) -> &KeptIds
        requires { IsMade self.now }
        ensures { slice_get (arc_value self.now.parts).shares.ids.items self.now.moved
            ≡ Some result.now }
    {
        &self.parts.shares.ids[self.moved]
    }

    /// The root or the entry whose file or directory has this number: its id, and what it holds.
    /// None if the state has no such number.
    pub fn found_at(&self, number: u64) -> Option<Found>
        requires { IsMade self.now }
        ensures slot { IfSome result (λ f. f.slot ≡ slot_at (slots_in self.now) f.id) }
        ensures number { IfSome result (λ f. number_of_id (slots_in self.now) f.id ≡ Some number) }
        ensures none { IfNone result (count_shown self.now ≤ number) }
    {
        let kept = &self.kept_ids().kept;
        let places = &self.order().places;
        found_at_number(kept, places, &self.parts.tables.slots, &self.own, number)
    }

    /// The file or directory with this number in the state. None if the state has no such number.
    pub fn node_at(&self, number: u64) -> Option<Node>
        requires { IsMade self.now }
        ensures there { IfSome result (IsNodeAt self.now number) }
        ensures none { IfNone result (count_shown self.now ≤ number) }
    {
        self.found_at(number)?.slot
    }

    /// The trace's number of the directory that has `number` in the state's tree: that by which
    /// entries name it. None if nothing has `number`, or a file has it.
    pub fn directory_at(&self, number: u64) -> Option<u32>
        requires { IsMade self.now }
        ensures there { IfSome result (IsDirectoryAt self.now number) }
        ensures none { IfNone result (IsNoDirectory self.now number) }
    {
        let node = self.node_at(number)?;
        match node {
            Node::Directory(directory) => Some(directory),
            Node::File(..) => None,
        }
    }

    /// Every entry that the start has or a micro-operation touches, in the order of places.
    pub fn entries(&self) -> &[Entry]
        ensures { result.now ≡ (arc_value self.now.parts).tables.entries.items }
    {
        &self.parts.tables.entries
    }

    /// The number, in the state, of what the entry at this place holds. None if it holds nothing in
    /// the state.
    pub fn number_of_place(&self, place: usize) -> Option<u64>
        requires made { IsMade self.now }
        requires there { place < length (arc_value self.now.parts).tables.entries.items }
        ensures { result ≡ number_of_place self.now place }
    {
        let ids = self.kept_ids();
        number_of(
            &ids.kept,
            &ids.kept_below,
            &self.own,
            self.order().ids[place],
        )
    }

    /// The number, in the state, of what the entry with this name in the directory holds. None if
    /// it holds nothing, or the trace has no such entry. `directory` is the trace's number.
    pub fn number_of_name(&self, directory: u32, name: &str) -> Option<u64>
        requires { IsMade self.now }
        ensures { result ≡ number_shown self.now directory name.now }
    {
        let place = place_of_entry(self.entries(), directory, name)?;
        self.number_of_place(place)
    }

    /// The entry with this id, which the order of paths must have; None for 0, the root, which has
    /// no entry. The entry may hold nothing in this state.
    pub fn entry_of_id(&self, id: u32) -> Option<&Entry>
        requires made { IsMade self.now }
        requires there { id < length (slots_in self.now) }
        ensures { option_copied result ≡ entry_of_id self.now id }
    {
        if id == 0 {
            return None;
        }
        let place = self.order().places[id as usize - 1];
        Some(&self.parts.tables.entries[place as usize])
    }

    /// The number, in the state, of the directory that has the number `directory` in the trace; the
    /// root has 0 in both. None if it isn't in the state.
    pub fn number_of_directory(&self, directory: u32) -> Option<u64>
        requires made { IsMade self.now }
        requires known { directory < length (arc_value self.now.parts).tables.directories.items }
        requires some { 0 < length (arc_value self.now.parts).tables.entries.items }
        ensures { result ≡ number_of_directory self.now directory }
    {
        if directory == 0 {
            return Some(0);
        }
        let place = self.order().positions[directory as usize];
        self.number_of_place(place as usize)
    }

    /// How many records the state has, that of the root too: one for each kept id, and one for each
    /// of its own entries. A file with several paths has one for each.
    pub fn count(&self) -> usize
        requires { IsMade self.now }
        ensures { result ≡ count_shown self.now }
    {
        self.kept_ids().kept.len() + self.own.len()
    }

    /// The metadata of the file or directory `node`, which has `number` in the state.
    pub fn metadata(&self, number: u64, node: Node) -> Metadata<'_>
        requires made { IsMade self.now }
        requires known { IsKnown (length (arc_value self.now.parts).tables.directories.items)
            (length (arc_value self.now.parts).tables.owners.items) (Some node) }
        ensures { metadata_of_ref result
            ≡ metadata_of (fresh_record number
            (record_in (arc_value self.now.parts) (members_in self.now.members.items) node)) }
    {
        metadata_of(&self.parts, &self.members, number, node)
    }

    /// At most `count` bytes, from the offset on, of the file `node`: fewer near its end, and none
    /// at its end or past it. None (not an empty list) for a directory. Memory can run out only if
    /// there is a byte to read.
    pub fn read(
        &self,
        alloc: Global,
        node: Node,
        offset: u64,
        count: usize,
    ) -> Result<Option<Vec<u8>>, AllocError>
        requires made { IsMade self.now }
        requires known { IsKnown (length (arc_value self.now.parts).tables.directories.items)
            (length (arc_value self.now.parts).tables.owners.items) (Some node) }
        ensures value { IfOk result
            (λ bytes. option_map (λ v. v.items) bytes
            ≡ read_in (arc_value self.now.parts) (members_in self.now.members.items) node offset
            count) }
        ensures memory { IsErr result
            → IsSomeAnd
            (read_in (arc_value self.now.parts) (members_in self.now.members.items) node offset
            count) (λ bytes. bytes ≢ []) }
    {
        read_node(alloc, &self.parts, &self.members, node, offset, count)
    }
}
