// What a transmitter and a receiver both have, the two ends of a channel, and what both do.
#![tactic(auto)]

ghost use Rattle.std.specs.Prelude.{◌≡◌, ◌≤◌};
ghost use Rattle.ends.specs.Ends.{no_end, with_checks, restarted, counted, opening, raised};

use silos::Silo;
use words::codes::Codes;
use words::crc::crc_with_word;
use words::load::Load;

pub mod sides;

// The data silo, the load, the codes shown, whether the channel is open, the words since the last CRC and their CRC, the period's mark,
// and the serial of the last opening.
#[derive(Clone, Copy)]
pub struct End {
    pub silo: Silo,
    pub load: Load,
    pub shown: Codes,
    pub opened: bool,
    pub block: u16,
    pub crc: u16,
    pub mark: bool,
    pub serial: u16,
}

impl End {
    // What fit, TX INIT, RC INIT and reset give: fit the serial 0, the others the one that stood.
    pub fn none(serial: u16) -> End
        ensures { result ≡ no_end serial }
    {
        End {
            silo: Silo::empty(),
            load: Load::none(),
            shown: Codes::none(),
            opened: false,
            block: 0,
            crc: 0,
            mark: false,
            serial,
        }
    }

    fn with_checks(self, block: u16, crc: u16) -> End
        ensures { result ≡ with_checks self block crc }
    {
        End { block, crc, ..self }
    }

    // The count of 128 and the CRC start again.
    pub fn restart(self) -> End
        ensures { result ≡ restarted self }
    {
        self.with_checks(0, 0)
    }

    // A word is in the CRC and in the count of 128, and clears the period's mark.
    pub fn count(self, word: u16) -> End
        requires { self.block ≤ 128 }
        ensures { result ≡ counted self word }
    {
        let end = self.with_checks(self.block + 1, crc_with_word(self.crc, word));
        End { mark: false, ..end }
    }

    // The channel opens afresh, with the serial of that opening.
    pub fn open(self, serial: u16) -> End
        ensures { result ≡ opening self serial }
    {
        End {
            opened: true,
            serial,
            ..self.restart()
        }
    }
}

// The serial of the next opening: one more, and 0 after 65,535.
pub fn raise(serial: u16) -> u16
    ensures { result ≡ raised serial }
{
    serial.wrapping_add(1)
}
