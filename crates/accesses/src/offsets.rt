// The byte offsets by which a unit's sides are told apart, and that of TX INIT.

// Its low byte has TX INIT.
pub const TCR: u32 = 0;

pub const TMMR: u32 = 10;

// The odd offset above is the high byte.
pub const TMMR_HIGH: u32 = 11;

// From there on they are the receiver's.
pub const RCR: u32 = 16;
