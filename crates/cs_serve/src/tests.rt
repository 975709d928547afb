//! What no client of the built program sees: accepts that fail, streams in pieces, audits by other
//! passes, and workers that wait for one another. tools/tests has the command over loopback.
mod fixture;
mod linux;
mod printing;
mod refusals;
mod summary;
mod workers;
