// TCR and TSR, bit by bit: out of a transmitter, and into the groups of its record.
ghost use Rattle.std.specs.Prelude.{◌≡◌, ◌<◌};
ghost use Rattle.transmitter.specs.Bits.{control_of, status_of, commands_in, modes_in, faults_in, outcome_in};
ghost use Rattle.transmitter.specs.Side.{Within};

use crate::side::{Commands, Faults, Modes, Outcome, Transmitter};
use words::bits::{bit_at, bits_at, set_at, tcr, tsr};

// ---- out

// Each part of the sum fits since the whole does: that is why this asks for the whole.
fn control_sum(t: Transmitter, extension: u16, at_init: bool, at_ready: bool) -> u16
    requires { control_of t extension at_init at_ready < 65536 }
    ensures { result ≡ control_of t extension at_init at_ready }
{
    set_at(tcr::ST_TXM, t.commands.start_transmission)
        + set_at(tcr::TX_INIT, at_init)
        + set_at(tcr::INH_ADI, t.modes.inhibit_increment)
        + set_at(tcr::DT_O_RDY, at_ready)
        + extension * (1 << tcr::EA16)
        + set_at(tcr::IE, t.modes.interrupt_enable)
        + set_at(tcr::RD_SILO, t.modes.read_silo)
        + t.modes.destination * (1 << tcr::DC_00)
        + set_at(tcr::SND_WD, t.commands.send_word)
        + set_at(tcr::TX_NPR, t.modes.memory_requests)
        + set_at(tcr::RIB, t.modes.retry_if_busy)
}

// TCR, with EA17 and EA16, and with what stands at TX INIT and at DT O RDY.
pub fn control_bits(t: Transmitter, extension: u16, at_init: bool, at_ready: bool) -> u16
    requires within { Within t }
    requires extension_bound { extension < 4 }
    ensures { result ≡ control_of t extension at_init at_ready }
{
    control_sum(t, extension, at_init, at_ready)
}

fn status_sum(t: Transmitter, at_busy: bool, at_ready: bool, at_error: bool) -> u16
    requires { status_of t at_busy at_ready at_error < 65536 }
    ensures { result ≡ status_of t at_busy at_ready at_error }
{
    let shown = t.end.shown;
    shown.a * (1 << tsr::RSP_A_0)
        + shown.b * (1 << tsr::RSP_B_0)
        + set_at(tsr::TBS_BSY, t.outcome.bus_busy)
        + set_at(tsr::SORE, t.outcome.software_reject)
        + set_at(tsr::BUSY, at_busy)
        + set_at(tsr::SUC_TXF, t.outcome.success)
        + set_at(tsr::DTIRDY, at_ready)
        + set_at(tsr::OVERUN, t.faults.overrun)
        + set_at(tsr::TIM_OUT, t.faults.time_out)
        + set_at(tsr::MST_DWN, t.faults.master_down)
        + set_at(tsr::TXM_ERR, t.faults.transmission_error)
        + set_at(tsr::MEM_OFL, t.faults.memory_overflow)
        + set_at(tsr::NXL, t.faults.nonexistent_location)
        + set_at(tsr::ERR, at_error)
}

// TSR, with what stands at BUSY, at DTIRDY and at ERR.
pub fn status_bits(t: Transmitter, at_busy: bool, at_ready: bool, at_error: bool) -> u16
    requires { Within t }
    ensures { result ≡ status_of t at_busy at_ready at_error }
{
    status_sum(t, at_busy, at_ready, at_error)
}

// ---- in

pub fn commands_in(control: u16) -> Commands
    ensures { result ≡ commands_in control }
{
    Commands {
        start_transmission: bit_at(control, tcr::ST_TXM),
        send_word: bit_at(control, tcr::SND_WD),
    }
}

pub fn modes_in(control: u16) -> Modes
    ensures { result ≡ modes_in control }
{
    Modes {
        inhibit_increment: bit_at(control, tcr::INH_ADI),
        interrupt_enable: bit_at(control, tcr::IE),
        read_silo: bit_at(control, tcr::RD_SILO),
        memory_requests: bit_at(control, tcr::TX_NPR),
        retry_if_busy: bit_at(control, tcr::RIB),
        destination: bits_at(control, tcr::DC_00, 5),
    }
}

pub fn faults_in(status: u16) -> Faults
    ensures { result ≡ faults_in status }
{
    Faults {
        overrun: bit_at(status, tsr::OVERUN),
        time_out: bit_at(status, tsr::TIM_OUT),
        master_down: bit_at(status, tsr::MST_DWN),
        transmission_error: bit_at(status, tsr::TXM_ERR),
        memory_overflow: bit_at(status, tsr::MEM_OFL),
        nonexistent_location: bit_at(status, tsr::NXL),
    }
}

pub fn outcome_in(status: u16) -> Outcome
    ensures { result ≡ outcome_in status }
{
    Outcome {
        bus_busy: bit_at(status, tsr::TBS_BSY),
        software_reject: bit_at(status, tsr::SORE),
        success: bit_at(status, tsr::SUC_TXF),
    }
}
