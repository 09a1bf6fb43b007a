// The bits of RCR, offset 16 (document 01, Registers, and the manual's 3.2.1), by their places: each name is the manual's.

pub const RCV_DAT: u16 = 0;

pub const RC_INIT: u16 = 1;

pub const INH_ADI: u16 = 2;

pub const DTIRDY: u16 = 3;

// EA16, and EA17 above it.
pub const EA16: u16 = 4;

pub const IE: u16 = 6;

pub const LD_SILO: u16 = 7;

// IB 00 to IB 04, the last opening's sender address.
pub const IB_00: u16 = 8;

pub const RCV_WD: u16 = 13;

pub const RC_NPR: u16 = 14;

pub const REJ: u16 = 15;
