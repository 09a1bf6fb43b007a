// The bits of TMMR, offset 10 (the manual's 3.1.6), by their places: each name is the manual's.

// TXM AD0 to TXM AD4, an address.
pub const TXM_AD0: u16 = 0;

pub const MASTER: u16 = 8;

pub const SEC: u16 = 9;

pub const NOW_MST: u16 = 10;

pub const CHN_OPN: u16 = 11;

pub const AUT_ADR: u16 = 12;

pub const CLR_ADR: u16 = 13;

pub const AIP_RDY: u16 = 14;

pub const AOP_RDY: u16 = 15;
