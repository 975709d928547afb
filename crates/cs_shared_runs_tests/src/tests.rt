//! Worked examples of shared runs and of publishing.
mod audits;
mod full_journals;
mod publishing;
mod registries;
mod reloads;
mod shared_runs;
mod side;
