//! Which crashfs this is.

/// The version, and the kit that proves this text. A commit can't be in the source that it commits:
/// ATTESTATION of a release ties the program's checksum to one.
pub const VERSION: &str = "0.2.0 (kit rattle-kit-13f logic dac8208d650f15bf)";
