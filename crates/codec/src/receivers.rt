// A receiver as the cells of its window, and the receiver that a window holds.
ghost use Rattle.std.specs.Prelude.{◌≡◌};
ghost use Rattle.receiver.specs.Side.{Within};
ghost use Rattle.codec.specs.Receivers.{control_cell, status_cell, enc_receiver, channel_of, dec_receiver};
ghost use Rattle.std.proofs.Common.{rules};

use crate::end_cells::{CONTROL, MARK, OWN, SIDE, STATUS, end_in, window_of};
use crate::in_window::InWindow;
use receiver::bits::{commands_in, control_bits, faults_in, modes_in, outcome_in, status_bits};
use receiver::side::{Channel, Receiver};
use words::bits::{bit_at, rsr};

// ---- out

fn control_cell(r: Receiver) -> u16
    requires { Within r }
    ensures { result ≡ control_cell r }
{
    let load = r.end.load;
    let address = load.address;
    control_bits(r, address.extension(), load.loaded, r.end.mark)
}

// The channel's other marks stand at RSR's computed bits.
fn status_cell(r: Receiver) -> u16
    requires { Within r }
    ensures { result ≡ status_cell r }
{
    status_bits(r, r.channel.owed, r.channel.good, r.channel.bad_parity)
}

// ---- in

// A closed receiver is not truncated.
fn channel_of(status: u16, truncated: u16, opened: bool) -> Channel
    ensures { result ≡ channel_of status truncated opened }
{
    Channel {
        owed: bit_at(status, rsr::BUSY),
        good: bit_at(status, rsr::DTORDY),
        bad_parity: bit_at(status, rsr::ERR),
        truncated: bit_at(truncated, 0) & opened,
    }
}

impl InWindow for Receiver {
    ghost PLACE = { 77 };

    ghost SIZE = { 73 };

    ghost decoded = { dec_receiver };

    ghost encoded = { enc_receiver };

    ghost Within = { Within };

    ghost inside = { Prim.search rules };

    const PLACE: usize = 77;

    const SIZE: usize = SIDE;

    // The period's mark stands only where the receiver is open.
    fn decode(cells: &[u16]) -> Self {
        let control = cells[CONTROL];
        let status = cells[STATUS];
        let opened = bit_at(status, rsr::CHN_OPN);
        let mark = bit_at(control, MARK) & opened;
        Receiver {
            end: end_in(cells, opened, mark),
            commands: commands_in(control),
            modes: modes_in(control),
            faults: faults_in(status),
            outcome: outcome_in(status),
            channel: channel_of(status, cells[OWN], opened),
        }
    }

    fn encode(self, cells: &mut [u16]) {
        let truncated = self.channel.truncated;
        let control = control_cell(self);
        let status = status_cell(self);
        window_of(cells, self.end, truncated as u16, control, status);
    }
}
