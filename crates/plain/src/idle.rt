// Whether a fitted unit's transmitter acts, and whom it addresses, by its cells.
ghost use Rattle.std.specs.Prelude.{◌≡◌};
ghost use Rattle.cells.specs.Fitted.{Fitted, transmitter_of};
ghost use Rattle.sending.specs.Choice.{acts_on, chosen, destination_of};
ghost use Rattle.plain.specs.Idle.{acts_by, addressed_by};

use cells::layout::{BLOCK, HEADER, TRANSMITTER};
use codec::head::Head;
use words::bits::{bit_at, bits_at, tcr, tsr};

// An open one acts; a closed one with SND WD, a word, a nonzero destination and no error bit. The error bits are six from OVERUN on.
fn acts_by(head: Head) -> bool
    ensures { result ≡ acts_by head.ring head.control head.status }
{
    bit_at(head.status, tsr::BUSY)
        | (bit_at(head.control, tcr::SND_WD)
            & (64 <= head.ring)
            & (bits_at(head.control, tcr::DC_00, 5) != 0)
            & (bits_at(head.status, tsr::OVERUN, 6) == 0))
}

// The latched destination of an open one, else that of TCR.
fn addressed_by(head: Head) -> u16
    ensures { result ≡ addressed_by head.own head.control head.status }
{
    if bit_at(head.status, tsr::BUSY) {
        return head.own % 32;
    }
    bits_at(head.control, tcr::DC_00, 5)
}

pub fn acts_at(cells: &[u16], unit: usize) -> bool
    requires { Fitted cells.now unit }
    ensures { result ≡ acts_on (chosen (transmitter_of cells.now unit)) }
{
    acts_by(Head::load(cells, HEADER + unit * BLOCK + TRANSMITTER))
}

pub fn destination_at(cells: &[u16], unit: usize) -> u16
    requires { Fitted cells.now unit }
    ensures { result ≡ destination_of (transmitter_of cells.now unit) }
{
    addressed_by(Head::load(cells, HEADER + unit * BLOCK + TRANSMITTER))
}
