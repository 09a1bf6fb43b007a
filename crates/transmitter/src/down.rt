// MST DWN: what a slice with no master does to a transmitter, where no unit takes over.
ghost use Rattle.std.specs.Prelude.{◌≡◌};
ghost use Rattle.transmitter.specs.Down.{misses_master, master_missed};

use crate::side::{Faults, Transmitter};
use ends::sides::Side;

// Whether it wants to send.
pub fn misses_master(t: Transmitter) -> bool
    ensures { result ≡ misses_master t }
{
    let silo = t.end.silo;
    t.commands.send_word & !silo.is_empty()
}

pub fn miss_master(t: Transmitter) -> Transmitter
    ensures { result ≡ master_missed t }
{
    if misses_master(t) {
        return t.fail(Faults {
            master_down: true,
            ..t.faults
        });
    }
    t
}
