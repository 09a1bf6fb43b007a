// What TCR and TSR show.
ghost use Rattle.std.specs.Prelude.{◌≡◌};
ghost use Rattle.transmitter.specs.Side.{Within};
ghost use Rattle.transmitter_registers.specs.Shown.{control_word, status_word};

use ends::sides::Side;
use transmitter::bits::{control_bits, status_bits};
use transmitter::side::{Transmitter, is_data_in_ready};

// TCR. TX INIT reads 0.
pub fn control_word(t: Transmitter) -> u16
    requires { Within t }
    ensures { result ≡ control_word t }
{
    let silo = t.end.silo;
    let load = t.end.load;
    let address = load.address;
    control_bits(t, address.extension(), false, !silo.is_empty())
}

// TSR.
pub fn status_word(t: Transmitter) -> u16
    requires { Within t }
    ensures { result ≡ status_word t }
{
    status_bits(t, t.is_busy(), is_data_in_ready(t), t.has_error())
}
