// The record of a master section, and its initial state.
ghost use Rattle.std.specs.Prelude.{◌≡◌};
ghost use Rattle.master.specs.Side.{initial, initialised};

use silos::Silo;

// The address silo, which is used to 50; AUT ADR, SEC and NOW MST; the address that the counter gives next, and the counter switch.
#[derive(Clone, Copy)]
pub struct Master {
    pub addresses: Silo,
    pub auto_address: bool,
    pub secondary: bool,
    pub now_master: bool,
    pub place: u16,
    pub switch: u16,
}

// Who has MASTER, seen from this unit. MASTER itself is held outside: at most one unit has it.
#[derive(Clone, Copy, PartialEq, Eq, Debug)]
pub enum Mastership {
    Nobody,
    Own,
    Other,
}

impl Master {
    // What fit gives.
    pub fn initial(switch: u16) -> Master
        ensures { result ≡ initial switch }
    {
        Master {
            addresses: Silo::empty(),
            auto_address: true,
            secondary: false,
            now_master: false,
            place: switch,
            switch,
        }
    }

    // What TX INIT and reset give. MASTER, which they clear too, is held outside.
    pub fn init(self) -> Master
        ensures { result ≡ initialised self }
    {
        Master::initial(self.switch)
    }
}
