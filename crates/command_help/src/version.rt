//! The version of the program.

/// The number of its release.
pub const RELEASE: u64 = 3;
