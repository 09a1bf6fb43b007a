// The numbers on the bus and in the registers: parity, the CRC, response codes, byte and word counts, addresses, a load of
// words, and what a register access is answered.
#![tactic(auto)]

pub mod address;
pub mod answers;
pub mod bits;
pub mod codes;
pub mod count;
pub mod crc;
pub mod halves;
pub mod lines;
pub mod load;
pub mod parity;
