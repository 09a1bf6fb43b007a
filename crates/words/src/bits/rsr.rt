// The bits of RSR, offset 18 (the manual's 3.2.2). Bits 9 to 14 are the error bits, by their places: each name is the manual's.

// RSP A 0 and RSP A 1, the response code A.
pub const RSP_A_0: u16 = 0;

// RSP B 0 and RSP B 1, the response code B.
pub const RSP_B_0: u16 = 2;

pub const CHN_OPN: u16 = 4;

pub const RECOM: u16 = 5;

pub const BUSY: u16 = 6;

pub const SUC_TXF: u16 = 7;

pub const DTORDY: u16 = 8;

pub const BC_OFL: u16 = 9;

pub const TIM_OUT: u16 = 10;

pub const PAR: u16 = 11;

pub const TXM_ERR: u16 = 12;

pub const MEM_OFL: u16 = 13;

pub const NXL: u16 = 14;

pub const ERR: u16 = 15;
