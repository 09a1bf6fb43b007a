// The bits of TCR, offset 0 (the manual's 3.1.1), by their places: each name is the manual's.

pub const ST_TXM: u16 = 0;

pub const TX_INIT: u16 = 1;

pub const INH_ADI: u16 = 2;

pub const DT_O_RDY: u16 = 3;

// EA16, and EA17 above it.
pub const EA16: u16 = 4;

pub const IE: u16 = 6;

pub const RD_SILO: u16 = 7;

// DC 00 to DC 04, the destination.
pub const DC_00: u16 = 8;

pub const SND_WD: u16 = 13;

pub const TX_NPR: u16 = 14;

pub const RIB: u16 = 15;
