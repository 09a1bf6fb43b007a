// What the bus does to what is sent.

// A mask over the data lines, and whether the parity line is turned over.
#[derive(Clone, Copy)]
pub struct Damage {
    pub mask: u16,
    pub parity: bool,
}
