// What RCR and RSR show.
ghost use Rattle.std.specs.Prelude.{◌≡◌};
ghost use Rattle.receiver.specs.Side.{Within};
ghost use Rattle.receiver_registers.specs.Shown.{control_word, status_word};

use ends::sides::Side;
use receiver::bits::{control_bits, status_bits};
use receiver::side::{Receiver, is_data_in_ready, is_data_out_ready};

// RCR. RC INIT reads 0.
pub fn control_word(r: Receiver) -> u16
    requires { Within r }
    ensures { result ≡ control_word r }
{
    let load = r.end.load;
    let address = load.address;
    control_bits(r, address.extension(), false, is_data_in_ready(r))
}

// RSR.
pub fn status_word(r: Receiver) -> u16
    requires { Within r }
    ensures { result ≡ status_word r }
{
    status_bits(r, r.is_busy(), is_data_out_ready(r), r.has_error())
}
