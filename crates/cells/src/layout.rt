// Where everything lies in the lent cells: a header of 66 cells, and a block of 202 for each fitted unit.

// The most units that a link has.
pub const UNITS: usize = 16;

// The header's cells: the count of units, who is master, and the index, an entry for each number of 5 bits as a transmitter address and
// then one for each as a receiver address.
pub const HEADER: usize = 66;

pub const COUNT: usize = 0;

pub const HOLDER: usize = 1;

pub const INDEX: usize = 2;

pub const NUMBERS: usize = 32;

// A unit's block: 4 cells of its own, 73 of its transmitter, 73 of its receiver, 52 of its master section.
pub const BLOCK: usize = 202;

pub const TRANSMITTER: usize = 4;

pub const RECEIVER: usize = 77;

pub const MASTER: usize = 150;

// A unit's own cells: transmitter address - 1, receiver address - 1, and memory length - 1, above 16 bits and the low 16.
pub const SENDS_AS: usize = 0;

pub const RECEIVES_AS: usize = 1;

pub const MEMORY_HIGH: usize = 2;

pub const MEMORY_LOW: usize = 3;
