//! Why an attach finds no run, and why a run gives it no pass.

/// Why an attach finds no run, with the rule that its refusal names.
#[derive(Clone, Copy, Debug, PartialEq, Eq, Drop)]
pub enum FindFault {
    /// No state of that number is published: A4.
    Unpublished,
    /// The run was found RUN_ATTACHES times already; or it would be new, and there are RUNS runs;
    /// or the asker can count no more of them: A5.
    Full,
    /// There is no memory to make or keep the run: out of memory, which is no rule.
    Memory,
}

/// Why a run gives an attach no pass, with the rule that its refusal names. No pass was made.
#[derive(Clone, Copy, Debug, PartialEq, Eq, Drop)]
pub enum PassFault {
    /// The place of the attach has no run: S5.
    Foreign,
    /// The run gave RUN_ATTACHES passes already, or the asker can count no more of them: A5.
    Room,
    /// There is no memory for a pass: out of memory, which is no rule.
    Memory,
}
