//! The line of a set, kept from one set to the next: what both share isn't made again.
ghost use Rattle.std.specs.Prelude.{◌≡◌, ◌≢◌, ◌+◌, ◌<◌, ◌≤◌, ◌++◌, ℕ, [], codes, decimal, length};
ghost use Rattle.std.specs.Prelude.{IfErr, OnOk};
ghost use Rattle.std.specs.Io.KnownBytes.{Appends};
ghost use Rattle.arrayvec.specs.ArrayVec.{array_vec_len};
ghost use Rattle.cs_sets.specs.Bits.{has_place};
ghost use Rattle.cs_sets.specs.Places.{places_of};
ghost use Rattle.cs_every.specs.Faults.{IsOutside};
ghost use Rattle.cs_every.specs.Lines.{IsText};
ghost use Rattle.cs_every.specs.Texts.{pick_line};

use crate::bytes::write_bytes;
use crate::fault::EveryFault;
use arrayvec::ArrayVec;
use cs_names::limits::MICRO_OPERATIONS;
use cs_sets::Row;
use std::io::Write;
use std::marker::Model;

/// The most bytes of the text of a set's places: for each a comma and four digits.
const TEXT_BYTES: usize = 5 * MICRO_OPERATIONS;

/// Appends the digits of a number. There must be room for them.
#[tactic(auto, using(std::proofs::lemmas::Fmt::decimal_digit))]
fn push_digits(number: usize, text: &mut ArrayVec<u8, TEXT_BYTES>)
    requires { array_vec_len text.old + length (decimal number) ≤ TEXT_BYTES }
    ensures { text.new.items ≡ text.old.items ++ decimal number }
{
    if number < 10 {
        text.push(b'0' + number as u8);
        return;
    }
    push_digits(number / 10, text);
    text.push(b'0' + (number % 10) as u8);
}

/// Appends a comma and the number of a place. There must be room for five bytes.
fn push_place(place: usize, text: &mut ArrayVec<u8, TEXT_BYTES>)
    requires below { place < MICRO_OPERATIONS }
    requires room { array_vec_len text.old + 5 ≤ TEXT_BYTES }
    ensures { text.new.items ≡ text.old.items ++ (codes "," ++ decimal place) }
{
    text.push(b',');
    push_digits(place, text);
}

/// The first place that one of the two sets has and the other lacks; MICRO_OPERATIONS if they are
/// equal.
fn first_difference(one: &Row, other: &Row) -> usize
    ensures end { result ≤ MICRO_OPERATIONS }
    ensures same { (k : ℕ) → k < result → has_place one.now k ≡ has_place other.now k }
    ensures differs { result < MICRO_OPERATIONS
        → has_place one.now result ≢ has_place other.now result }
{
    let mut of_one = *one;
    of_one.remove(other);
    let mut of_other = *other;
    of_other.remove(one);
    let end = of_one
        .next_from(0, MICRO_OPERATIONS)
        .unwrap_or(MICRO_OPERATIONS);
    of_other.next_from(0, end).unwrap_or(end)
}

/// Cuts the text of a set's places back to the text of those before `end`.
fn cut_text(set: &Row, end: usize, starts: &[usize], text: &mut ArrayVec<u8, TEXT_BYTES>)
    requires end { end ≤ MICRO_OPERATIONS }
    requires starts { length starts.now ≡ MICRO_OPERATIONS }
    requires text { IsText starts.now text.old.items (has_place set.now) MICRO_OPERATIONS }
    ensures { IsText starts.now text.new.items (has_place set.now) end }
{
    if let Some(place) = set.next_from(end, MICRO_OPERATIONS) {
        text.truncate(starts[place]);
    }
}

/// Appends the text of each place of the set from `first` on, and keeps where it starts.
fn extend_text(set: &Row, first: usize, starts: &mut [usize], text: &mut ArrayVec<u8, TEXT_BYTES>)
    requires first { first ≤ MICRO_OPERATIONS }
    requires starts { length starts.old ≡ MICRO_OPERATIONS }
    requires text { IsText starts.old text.old.items (has_place set.now) first }
    ensures { IsText starts.new text.new.items (has_place set.now) MICRO_OPERATIONS }
{
    let mut at = first;
    while let Some(place) = set.next_from(at, MICRO_OPERATIONS) {
        starts[place] = text.len();
        push_place(place, text);
        at = place + 1;
    }
}

/// A set, with the text of its line. It takes the place of the line of the set before: only what
/// comes from the first place on in which both differ is made. Nothing is allocated. Contracts see
/// the places of the set, ascending.
#[derive(Drop)]
pub struct Line {
    set: Row,
    // a comma and the number of each place
    text: ArrayVec<u8, TEXT_BYTES>,
    // of each place of the set, where its comma is in the text
    starts: [usize; MICRO_OPERATIONS],
}

impl Model for Line {
    ghost use Rattle.std.specs.Prelude.{List, ℕ};
    ghost use Rattle.cs_sets.specs.Bits.{has_place};
    ghost use Rattle.cs_sets.specs.Places.{places_of};
    ghost use Rattle.cs_every.specs.Lines.{IsText};

    ghost Value = { List ℕ };

    ghost view = { λ line. places_of line.set };

    ghost invariant = { λ line. IsText line.starts line.text.items (has_place line.set) 1024 };
}

impl Line {
    /// The line of the set without places.
    pub fn empty() -> Line
        ensures { result ≡ [] }
    {
        Line {
            set: Row::empty(),
            text: ArrayVec::new(),
            starts: [0; MICRO_OPERATIONS],
        }
    }

    /// Makes it the line of another set.
    pub fn change_to(&mut self, set: &Row)
        ensures { self.new ≡ places_of set.now }
    {
        let first = first_difference(&self.set, set);
        cut_text(&self.set, first, &self.starts, &mut self.text);
        extend_text(set, first, &mut self.starts, &mut self.text);
        self.set = *set;
    }

    /// Writes the line: the places of the set as a JSON array, and a line feed. The array of an
    /// empty set is `[]`. The only fault is Output; then a part of the line may be written.
    pub fn write<W: Write>(&self, out: &mut W) -> Result<(), EveryFault>
        ensures fault { IfErr result IsOutside }
        ensures text { OnOk result (Appends (W.contents out.old) (W.contents out.new)
            (pick_line self.now)) }
    {
        match self.text.as_slice() {
            [] => {
                write_bytes(b"[]\n", out)?;
                Ok(())
            }
            [_comma, places @ ..] => {
                write_bytes(b"[", out)?;
                write_bytes(places, out)?;
                write_bytes(b"]\n", out)?;
                Ok(())
            }
        }
    }
}
