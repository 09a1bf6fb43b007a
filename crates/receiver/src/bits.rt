// RCR and RSR, bit by bit: out of a receiver, and into the groups of its record.
ghost use Rattle.std.specs.Prelude.{◌≡◌, ◌<◌};
ghost use Rattle.receiver.specs.Bits.{control_of, status_of, commands_in, modes_in, faults_in, outcome_in};
ghost use Rattle.receiver.specs.Side.{Within};

use crate::side::{Commands, Faults, Modes, Outcome, Receiver};
use words::bits::{bit_at, bits_at, rcr, rsr, set_at};

// ---- out

// Each part of the sum fits since the whole does: that is why this asks for the whole.
fn control_sum(r: Receiver, extension: u16, at_init: bool, at_ready: bool) -> u16
    requires { control_of r extension at_init at_ready < 65536 }
    ensures { result ≡ control_of r extension at_init at_ready }
{
    set_at(rcr::RCV_DAT, r.commands.receive_data)
        + set_at(rcr::RC_INIT, at_init)
        + set_at(rcr::INH_ADI, r.modes.inhibit_increment)
        + set_at(rcr::DTIRDY, at_ready)
        + extension * (1 << rcr::EA16)
        + set_at(rcr::IE, r.modes.interrupt_enable)
        + set_at(rcr::LD_SILO, r.modes.load_silo)
        + r.modes.sender * (1 << rcr::IB_00)
        + set_at(rcr::RCV_WD, r.commands.receive_word)
        + set_at(rcr::RC_NPR, r.modes.memory_requests)
        + set_at(rcr::REJ, r.modes.reject)
}

// RCR, with EA17 and EA16, and with what stands at RC INIT and at DTIRDY.
pub fn control_bits(r: Receiver, extension: u16, at_init: bool, at_ready: bool) -> u16
    requires within { Within r }
    requires extension_bound { extension < 4 }
    ensures { result ≡ control_of r extension at_init at_ready }
{
    control_sum(r, extension, at_init, at_ready)
}

fn status_sum(r: Receiver, at_busy: bool, at_ready: bool, at_error: bool) -> u16
    requires { status_of r at_busy at_ready at_error < 65536 }
    ensures { result ≡ status_of r at_busy at_ready at_error }
{
    let shown = r.end.shown;
    shown.a * (1 << rsr::RSP_A_0)
        + shown.b * (1 << rsr::RSP_B_0)
        + set_at(rsr::CHN_OPN, r.end.opened)
        + set_at(rsr::RECOM, r.outcome.reject_complete)
        + set_at(rsr::BUSY, at_busy)
        + set_at(rsr::SUC_TXF, r.outcome.success)
        + set_at(rsr::DTORDY, at_ready)
        + set_at(rsr::BC_OFL, r.faults.byte_count_overflow)
        + set_at(rsr::TIM_OUT, r.faults.time_out)
        + set_at(rsr::PAR, r.faults.parity)
        + set_at(rsr::TXM_ERR, r.faults.transmission_error)
        + set_at(rsr::MEM_OFL, r.faults.memory_overflow)
        + set_at(rsr::NXL, r.faults.nonexistent_location)
        + set_at(rsr::ERR, at_error)
}

// RSR, with what stands at BUSY, at DTORDY and at ERR.
pub fn status_bits(r: Receiver, at_busy: bool, at_ready: bool, at_error: bool) -> u16
    requires { Within r }
    ensures { result ≡ status_of r at_busy at_ready at_error }
{
    status_sum(r, at_busy, at_ready, at_error)
}

// ---- in

pub fn commands_in(control: u16) -> Commands
    ensures { result ≡ commands_in control }
{
    Commands {
        receive_data: bit_at(control, rcr::RCV_DAT),
        receive_word: bit_at(control, rcr::RCV_WD),
    }
}

pub fn modes_in(control: u16) -> Modes
    ensures { result ≡ modes_in control }
{
    Modes {
        inhibit_increment: bit_at(control, rcr::INH_ADI),
        interrupt_enable: bit_at(control, rcr::IE),
        load_silo: bit_at(control, rcr::LD_SILO),
        memory_requests: bit_at(control, rcr::RC_NPR),
        reject: bit_at(control, rcr::REJ),
        sender: bits_at(control, rcr::IB_00, 5),
    }
}

pub fn faults_in(status: u16) -> Faults
    ensures { result ≡ faults_in status }
{
    Faults {
        byte_count_overflow: bit_at(status, rsr::BC_OFL),
        time_out: bit_at(status, rsr::TIM_OUT),
        parity: bit_at(status, rsr::PAR),
        transmission_error: bit_at(status, rsr::TXM_ERR),
        memory_overflow: bit_at(status, rsr::MEM_OFL),
        nonexistent_location: bit_at(status, rsr::NXL),
    }
}

pub fn outcome_in(status: u16) -> Outcome
    ensures { result ≡ outcome_in status }
{
    Outcome {
        reject_complete: bit_at(status, rsr::RECOM),
        success: bit_at(status, rsr::SUC_TXF),
    }
}
