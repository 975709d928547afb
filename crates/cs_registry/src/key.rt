//! The key of a run.
ghost use Rattle.std.specs.Prelude.{◌≡◌, ◌≤◌, ◌++◌, MatchOption, false, length, true};
ghost use Rattle.std.specs.Cmp.{partial_equiv_from_equiv};
ghost use Rattle.std.specs.Cmp.Rules.{hashing};
ghost use Rattle.std.specs.Hash as fed;
ghost use Rattle.std.proofs.Common.{rules};
ghost use Rattle.cs_names.specs.Legal.{is_run_name};
ghost use Rattle.cs_registry.specs.Keys.{same_key, same_key-laws};
ghost use Rattle.cs_registry.specs.Naming.{are_few_digits, key_in, number_in};

use arrayvec::ArrayString;
use cs_names::limits::RUN_NAME_BYTES;
use cs_names::{RunName, is_all_digits};
use cs_permit::TreeName;
use std::hash::{Hash, Hasher};
use std::marker::Model;

/// A state's number has at most this many digits, since PLAN_STATES, 16384, has five. The specs
/// write 5: change both.
const NUMBER_DIGITS: usize = 5;

/// What names a run: the number of its state, and its own name. A key is made without an
/// allocation, so a lookup can't run out of memory.
#[derive(Drop)]
pub struct RunKey {
    /// The number of the state over which the run is.
    number: u32,
    /// The run's own name, in place.
    name: ArrayString<RUN_NAME_BYTES>,
}

impl Model for RunKey {
    ghost use Rattle.cs_names.specs.Legal.{is_run_name};
    ghost use Rattle.cs_registry.specs.Keys.{Key};

    ghost Value = { Key };

    ghost view = { λ key. record { number = key.number; name = key.name.bytes } };
}

impl RunKey {
    /// The key of the run of that name over the state of that number.
    pub fn new(number: u32, name: &RunName) -> RunKey
        ensures { result ≡ record { number = number; name = name.now } }
    {
        RunKey {
            number,
            name: name_in_array(name.as_str()),
        }
    }

    /// The key of the run whose name these bytes are, over the state of that number. None if the
    /// bytes aren't a legal name of a run.
    pub fn read(number: u32, name: &[u8]) -> Option<RunKey>
        ensures { MatchOption result (is_run_name name.now ≡ false)
            (λ key. (is_run_name name.now ≡ true)
            × (key ≡ record { number = number; name = name.now })) }
    {
        if !RunName::is_legal(name) {
            return None;
        }
        match RunName::check(name) {
            Ok(name) => Some(RunKey {
                number,
                name: name_in_array(name),
            }),
            // a legal name passes the check
            Err(_) => unreachable!(),
        }
    }

    /// The key of the run that a tree's name means. None unless the name's first part is at most
    /// NUMBER_DIGITS digits (no digits mean state 0) and the second is a legal name of a run.
    /// Whether the plan has the number isn't asked here.
    pub fn of_tree_name(name: &TreeName) -> Option<RunKey>
        ensures { result ≡ key_in name.now.state.now name.now.run.now }
    {
        if !are_few_digits(name.state) {
            return None;
        }
        RunKey::read(number_in(name.state), name.run)
    }

    /// A copy of the key. Allocates nothing.
    pub fn copy(&self) -> RunKey
        ensures { result ≡ self.now }
    {
        RunKey {
            number: self.number,
            name: name_in_array(self.name.as_str()),
        }
    }

    /// The number of the state over which the run is.
    pub fn number(&self) -> u32
        ensures { result ≡ self.now.number }
    {
        self.number
    }

    /// The run's own name.
    pub fn name(&self) -> &str
        ensures { result.now ≡ self.now.name }
    {
        self.name.as_str()
    }
}

impl PartialEq for RunKey {
    ghost eq = { same_key };

    ghost laws = { partial_equiv_from_equiv same_key-laws };

    /// Whether both have the same number and the same name.
    fn eq(&self, other: &RunKey) -> bool {
        self.number == other.number && self.name.as_str() == other.name.as_str()
    }
}

impl Eq for RunKey {
    ghost laws = { same_key-laws };
}

impl Hash for RunKey {
    ghost hash_input = { λ key. fed.u32 key.number ++ fed.str key.name };

    ghost respects_eq = { Prim.search (hashing, rules) };

    /// Feeds the hasher the number and then the name.
    fn hash<H: Hasher>(&self, state: &mut H) {
        state.write_u32(self.number);
        self.name.hash(state);
    }
}

/// A copy of a run's name in a fixed array. The caller knows that the name fits.
fn name_in_array(name: &str) -> ArrayString<RUN_NAME_BYTES>
    requires { length name.now ≤ RUN_NAME_BYTES }
    ensures { result.bytes ≡ name.now }
{
    match ArrayString::from(name) {
        Ok(name) => name,
        // the requires says that the name fits
        Err(_) => unreachable!(),
    }
}

/// Whether all bytes are decimal digits and there are at most NUMBER_DIGITS of them. True if there
/// are none.
fn are_few_digits(bytes: &[u8]) -> bool
    ensures { result ≡ are_few_digits bytes.now }
{
    bytes.len() <= NUMBER_DIGITS && is_all_digits(bytes)
}

/// The number that these decimal digits mean; 0 if there are none. The caller has checked that they
/// are digits, and at most NUMBER_DIGITS.
fn number_in(digits: &[u8]) -> u32
    requires { are_few_digits digits.now ≡ true }
    ensures { result ≡ number_in digits.now }
{
    let mut number = 0;
    for digit in digits {
        number = 10 * number + (*digit - b'0') as u32;
    }
    number
}
