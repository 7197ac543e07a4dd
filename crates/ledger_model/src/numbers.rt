//! Numbers that the definitions and the programs share.

/// The kind of a vendor's site, as a Site entry tells it.
pub const VENDOR_KIND: u8 = 0;

/// The kind of a broker's site. A vendor and a broker are houses; a wallet, whose kind is above, is none.
pub const BROKER_KIND: u8 = 1;

/// The most bytes of contents that a vendor has on sale at once, 2^26.
pub const MOST_IN_FORCE: u64 = 1 << 26;
