// A slice: whose it is, whom its transmitter addresses, and what it leaves.
ghost use Rattle.std.specs.Prelude.{true, false, ◌≡◌, List, ℕ, ◌<◌, Option};
ghost use Rattle.cells.specs.Fitted.{Fitted, master_of, put_next};
ghost use Rattle.cells.specs.Ranges.{in_range};
ghost use Rattle.master.specs.Section.{next_of};
ghost use Rattle.bus.specs.Plain.{HeardInPlace};
ghost use Rattle.bus.specs.Slice.{unheard, heard_by, acting_slice, slice_of, served, master_slice, slice_passed};

use crate::damage::Damage;
use crate::masterless::pass_masterless;
use answering::choice::is_open_with_another;
use cells::index::{receiver_with, transmitter_with};
use cells::layout::{BLOCK, HEADER, RECEIVER, TRANSMITTER};
use cells::sides::{put, put_next, side};
use cells::units::master;
use master::side::Master;
use plain::idle::{acts_at, destination_at};
use plain::turn::{turn_at, turns_at};
use plain_slices::slice::carry;
use receiver::side::Receiver;
use slices::{exchange, send_alone};
use transmitter::side::Transmitter;
use words::codes::Codes;

// The address that the master gave, and the codes A and B.
#[derive(Clone, Copy)]
pub struct Given {
    pub address: u16,
    pub codes: Codes,
}

// Where no receiver has the address, or it is open with another.
fn send_unheard(cells: &mut [u16], unit: usize) -> Codes
    requires { Fitted cells.old unit }
    ensures { ◌≡◌ {A = Codes × List ℕ} (result, cells.new) (unheard cells.old unit) }
{
    let t = side::<Transmitter>(cells, unit);
    let alone = send_alone(t);
    put(cells, unit, alone.transmitter);
    alone.codes
}

// Between a transmitter and the receiver of the unit `other`, which may be its own.
fn exchange_with(cells: &mut [u16], unit: usize, other: usize, from: u16, damage: Damage) -> Codes
    requires fitted { Fitted cells.old unit × Fitted cells.old other }
    requires from_bound { from < 32 }
    ensures { ◌≡◌ {A = Codes × List ℕ} (result, cells.new) (heard_by cells.old unit other from damage.mask damage.parity) }
{
    let r = side::<Receiver>(cells, other);
    if is_open_with_another(r, from) {
        return send_unheard(cells, unit);
    }
    let t = side::<Transmitter>(cells, unit);
    let pair = exchange(t, r, from, damage.mask, damage.parity);
    put(cells, unit, pair.transmitter);
    put(cells, other, pair.receiver);
    pair.codes
}

// The plain slice in place: its code B, or None where it is damaged or otherwise not plain, and nothing is done.
fn carry_undamaged(
    cells: &mut [u16],
    unit: usize,
    other: usize,
    from: u16,
    damage: Damage,
) -> Option<u16>
    requires { Fitted cells.old unit × Fitted cells.old other }
    ensures { HeardInPlace cells.old unit other from damage.mask damage.parity result cells.new }
{
    if damage.mask != 0 {
        return None;
    }
    if damage.parity {
        return None;
    }
    carry(
        cells,
        HEADER + unit * BLOCK + TRANSMITTER,
        HEADER + other * BLOCK + RECEIVER,
        from,
    )
}

// The plain slice in place, every other by value. Its codes are copied one by one: so those of the slice in place need not go through the
// memory that a call answers in, to be read back from there as one, which takes a processor longer than the rest of the slice.
fn hear(cells: &mut [u16], unit: usize, other: usize, from: u16, damage: Damage) -> Codes
    requires fitted { Fitted cells.old unit × Fitted cells.old other }
    requires from_bound { from < 32 }
    ensures { ◌≡◌ {A = Codes × List ℕ} (result, cells.new) (heard_by cells.old unit other from damage.mask damage.parity) }
{
    if let Some(b) = carry_undamaged(cells, unit, other, from, damage) {
        return Codes { a: 2, b };
    }
    let codes = exchange_with(cells, unit, other, from, damage);
    Codes {
        a: codes.a,
        b: codes.b,
    }
}

// The slice of a transmitter that acts.
fn serve_acting(cells: &mut [u16], unit: usize, from: u16, damage: Damage) -> Codes
    requires cells_value { in_range cells.old ≡ true }
    requires fitted { Fitted cells.old unit × (from < 32) }
    ensures { ◌≡◌ {A = Codes × List ℕ} (result, cells.new) (acting_slice cells.old unit from damage.mask damage.parity) }
{
    let destination = destination_at(cells, unit);
    if let Some(other) = receiver_with(cells, destination) {
        return hear(cells, unit, other, from, damage);
    }
    let codes = send_unheard(cells, unit);
    Codes {
        a: codes.a,
        b: codes.b,
    }
}

// The slice of a transmitter that was found. One that does not act leaves every cell.
fn serve_unit(cells: &mut [u16], unit: usize, from: u16, damage: Damage) -> Codes
    requires cells_value { in_range cells.old ≡ true }
    requires fitted { Fitted cells.old unit × (from < 32) }
    ensures { ◌≡◌ {A = Codes × List ℕ} (result, cells.new) (slice_of cells.old unit from damage.mask damage.parity) }
{
    if acts_at(cells, unit) {
        return serve_acting(cells, unit, from, damage);
    }
    Codes::none()
}

// The slice of an address.
fn serve(cells: &mut [u16], address: u16, damage: Damage) -> Given
    requires cells_value { in_range cells.old ≡ true }
    requires address_bound { address < 32 }
    ensures { ◌≡◌ {A = Given × List ℕ} (result, cells.new) (served cells.old address damage.mask damage.parity) }
{
    if let Some(unit) = transmitter_with(cells, address) {
        return Given {
            address,
            codes: serve_unit(cells, unit, address, damage),
        };
    }
    Given {
        address,
        codes: Codes::none(),
    }
}

// The master's next address: in place where the section is a plain one.
fn take_next(cells: &mut [u16], unit: usize) -> u16
    requires { Fitted cells.old unit }
    ensures { ◌≡◌ {A = ℕ × List ℕ} (result, cells.new) ((next_of (master_of cells.old unit)).address, put_next cells.old unit (next_of (master_of cells.old unit)).side) }
{
    if turns_at(cells, unit) {
        return turn_at(cells, unit);
    }
    let section = side::<Master>(cells, unit);
    let next = section.next_address();
    put_next(cells, unit, next.side);
    next.address
}

// And its slice.
fn serve_next(cells: &mut [u16], unit: usize, damage: Damage) -> Given
    requires cells_value { in_range cells.old ≡ true }
    requires fitted { Fitted cells.old unit }
    ensures { ◌≡◌ {A = Given × List ℕ} (result, cells.new) (master_slice cells.old unit damage.mask damage.parity) }
{
    let address = take_next(cells, unit);
    serve(cells, address, damage)
}

// A slice of the bus, with a damage mask over the data lines and one over parity: None where no unit is master.
pub fn pass_slice(cells: &mut [u16], mask: u16, parity: bool) -> Option<Given>
    requires { in_range cells.old ≡ true }
    ensures { ◌≡◌ {A = Option Given × List ℕ} (result, cells.new) (slice_passed cells.old mask parity) }
{
    if let Some(unit) = master(cells) {
        return Some(serve_next(cells, unit, Damage { mask, parity }));
    }
    pass_masterless(cells);
    None
}
