// The interrupt levels of a fitted unit's sides, in place: on the lent cells, with no side made a record. Nothing changes. IE is looked at
// first, for most sides have it clear.
ghost use Rattle.std.specs.Prelude.{◌≡◌};
ghost use Rattle.cells.specs.Fitted.{Fitted, transmitter_of, receiver_of};
ghost use Rattle.receiver.specs.Requests as R;
ghost use Rattle.transmitter.specs.Requests as T;

use cells::layout::{BLOCK, HEADER, RECEIVER, TRANSMITTER};
use codec::head::Head;
use words::bits::{bit_at, bits_at, rcr, rsr, tcr, tsr};

// IE, and an error bit, SUC TXF, SORE, or TBS BSY with RIB clear.
pub fn transmitter_level(cells: &[u16], unit: usize) -> bool
    requires { Fitted cells.now unit }
    ensures { result ≡ T.level_of (transmitter_of cells.now unit) }
{
    let head = Head::load(cells, HEADER + unit * BLOCK + TRANSMITTER);
    if !bit_at(head.control, tcr::IE) {
        return false;
    }
    (bits_at(head.status, tsr::OVERUN, 6) != 0)
        | bit_at(head.status, tsr::SUC_TXF)
        | bit_at(head.status, tsr::SORE)
        | (bit_at(head.status, tsr::TBS_BSY) & !bit_at(head.control, tcr::RIB))
}

// IE, and an error bit, SUC TXF, RECOM, or a word with RC NPR clear.
pub fn receiver_level(cells: &[u16], unit: usize) -> bool
    requires { Fitted cells.now unit }
    ensures { result ≡ R.level_of (receiver_of cells.now unit) }
{
    let head = Head::load(cells, HEADER + unit * BLOCK + RECEIVER);
    if !bit_at(head.control, rcr::IE) {
        return false;
    }
    (bits_at(head.status, rsr::BC_OFL, 6) != 0)
        | bit_at(head.status, rsr::SUC_TXF)
        | bit_at(head.status, rsr::RECOM)
        | ((64 <= head.ring) & !bit_at(head.control, rcr::RC_NPR))
}
