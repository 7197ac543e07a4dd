//! The ranges of what entries hold.

/// The most bytes of the contents that are sold for one target.
pub const MOST_CONTENTS: usize = 65_536;

/// The most pieces of one entry.
pub const MOST_PIECES: u16 = 256;

/// The least keeping time of a house, in seconds.
pub const LEAST_KEEP: u32 = 60;

/// The greatest keeping time of a house, in seconds: a day.
pub const MOST_KEEP: u32 = 86_400;

/// The most units that may stand in one account of a broker, 2^60.
pub const MOST_IN_ACCOUNT: u64 = 1 << 60;

/// The bytes of a chain, which is a digest.
pub const CHAIN_BYTES: usize = 32;

/// The last epoch that an identity has room for: an identity has 24 bits for it.
pub const MOST_EPOCH: u32 = (1 << 24) - 1;
