// A transmitter as the cells of its window, and the transmitter that a window holds.
ghost use Rattle.std.specs.Prelude.{◌≡◌};
ghost use Rattle.transmitter.specs.Side.{Within};
ghost use Rattle.codec.specs.Transmitters.{control_cell, status_cell, enc_transmitter, channel_of, dec_transmitter};
ghost use Rattle.std.proofs.Common.{rules};

use crate::end_cells::{CONTROL, MARK, OWN, SIDE, STATUS, end_in, window_of};
use crate::in_window::InWindow;
use transmitter::bits::{commands_in, control_bits, faults_in, modes_in, outcome_in, status_bits};
use transmitter::side::{Channel, Transmitter};
use words::bits::{bit_at, tsr};

// ---- out

fn control_cell(t: Transmitter) -> u16
    requires { Within t }
    ensures { result ≡ control_cell t }
{
    let load = t.end.load;
    let address = load.address;
    control_bits(t, address.extension(), load.loaded, t.end.mark)
}

// The channel's marks stand at TSR's computed bits.
fn status_cell(t: Transmitter) -> u16
    requires { Within t }
    ensures { result ≡ status_cell t }
{
    status_bits(t, t.end.opened, t.channel.ending, t.channel.awaiting)
}

// ---- in

// A closed transmitter is not ending, and a verdict is awaited only with 128 words since the last CRC.
fn channel_of(status: u16, destination: u16, opened: bool, block: u16) -> Channel
    ensures { result ≡ channel_of status destination opened block }
{
    Channel {
        ending: bit_at(status, tsr::DTIRDY) & opened,
        awaiting: bit_at(status, tsr::ERR) & (block == 128),
        destination: destination % 32,
    }
}

impl InWindow for Transmitter {
    ghost PLACE = { 4 };

    ghost SIZE = { 73 };

    ghost decoded = { dec_transmitter };

    ghost encoded = { enc_transmitter };

    ghost Within = { Within };

    ghost inside = { Prim.search rules };

    const PLACE: usize = 4;

    const SIZE: usize = SIDE;

    // The period's mark stands only where the transmitter is BUSY.
    fn decode(cells: &[u16]) -> Self {
        let control = cells[CONTROL];
        let status = cells[STATUS];
        let commands = commands_in(control);
        let opened = bit_at(status, tsr::BUSY);
        let mark = bit_at(control, MARK) & (commands.send_word | opened);
        let end = end_in(cells, opened, mark);
        Transmitter {
            end,
            commands,
            modes: modes_in(control),
            faults: faults_in(status),
            outcome: outcome_in(status),
            channel: channel_of(status, cells[OWN], opened, end.block),
        }
    }

    fn encode(self, cells: &mut [u16]) {
        let control = control_cell(self);
        let status = status_cell(self);
        window_of(cells, self.end, self.channel.destination, control, status);
    }
}
