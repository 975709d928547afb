//! The name of a tree in an attach, such as `3/a`: a state's number, a slash, and a run's name.
ghost use Rattle.std.specs.Prelude.{◌≡◌, MatchOption, None, Some};
ghost use Rattle.cs_permit.specs.TreeNames.{is_state_number, is_zero, tree_name_in};

use cs_names::{Pieces, RunName, is_all_digits};

/// The two parts of a tree's name, borrowed from the aname. `read` checks them.
#[derive(Clone, Copy, Debug)]
pub struct TreeName<'a> {
    /// The digits of the state's number, 1 to 5 of them.
    pub state: &'a [u8],
    /// The name of the run.
    pub run: &'a [u8],
}

/// Whether the bytes are the one digit 0.
fn is_zero(bytes: &[u8]) -> bool
    ensures { result ≡ is_zero bytes.now }
{
    bytes == b"0".as_slice()
}

/// Whether the bytes are a number of 1 to 5 digits without a leading zero; 0 itself is one.
/// PLAN_STATES has 5 digits, so no state has more (`NUMBER_DIGITS` of cs_registry is this 5).
fn is_state_number(bytes: &[u8]) -> bool
    ensures { result ≡ is_state_number bytes.now }
{
    match bytes.first() {
        None => false,
        Some(first) => {
            bytes.len() <= 5 && is_all_digits(bytes) && (*first != b'0' || bytes.len() == 1)
        }
    }
}

impl<'a> TreeName<'a> {
    /// The two parts of an aname (attach(5)): a state's number (`is_state_number`) and, after one
    /// slash, the legal name of a run. None if the aname has another form, which rule A3 refuses.
    /// It allocates nothing, and doesn't ask whether the state is published.
    pub fn read(aname: &'a [u8]) -> Option<TreeName<'a>>
        ensures { MatchOption result (tree_name_in aname.now ≡ None)
            (λ name. tree_name_in aname.now ≡ Some (name.state.now, name.run.now)) }
    {
        let mut pieces = Pieces::of(aname, b'/');
        let state = pieces.next()?;
        let run = pieces.next()?;
        if pieces.next().is_some() || !is_state_number(state) || !RunName::is_legal(run) {
            return None;
        }
        Some(TreeName { state, run })
    }

    /// Whether the tree is a run of state 0. Only tests ask this.
    pub fn is_of_state_zero(&self) -> bool
        ensures { result ≡ is_zero self.now.state.now }
    {
        is_zero(self.state)
    }
}
