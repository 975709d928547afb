//! The calls that reach a run.

use cs_permit::Call;

/// A call that reached a run: under the pass of that number, at that moment, in seconds since 1970.
/// The pass of an attach is the one that the run gave for it.
#[derive(Debug, Drop)]
pub struct RunCall {
    /// The pass's number in the run.
    pub pass: u32,
    /// In seconds since 1970.
    pub moment: u32,
    /// A copy of the call.
    pub call: Call<'static>,
}
