//! A run that was found, and how often.

/// What a registry keeps of a run, and how often the run was found.
#[derive(Drop)]
pub struct Found<H> {
    /// How often: from 1, for the find that made the run, to RUN_ATTACHES.
    pub finds: u32,
    /// What the registry keeps of the run.
    pub held: H,
}
