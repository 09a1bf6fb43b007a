// A list in which the turns of each transmitter lie apart.
ghost use Rattle.std.specs.Prelude.{◌≡◌, ◌*◌, ◌≤◌, length};
ghost use Rattle.shares.specs.Spreading.{turn_of, may_have, due_first, goes_first, better, next_address, spread};
ghost use Rattle.shares.specs.Wanted.{shares_in};

use crate::lists::{count_in, last_of};
use crate::wanted::{Share, shares_in};
use std::cmp::Ordering;

/// The next turn of a transmitter: its number, from 1 on, and whether it has come.
#[derive(Clone, Copy)]
pub struct Turn {
    pub address: u16,
    pub turns: u16,
    pub number: u16,
    pub come: bool,
}

fn times(a: u16, b: u16) -> u32
    ensures { result ≡ a * b }
{
    u32::from(a) * u32::from(b)
}

// Whether a transmitter may have the turn: it has one left, and was not the last to have one.
fn may_have(last: u16, turn: Turn) -> bool
    ensures { result ≡ may_have last turn }
{
    turn.number <= turn.turns && turn.address != last
}

// Whether a turn is due before another; of two that are due together, the larger share's is.
fn due_first(turn: Turn, best: Turn) -> bool
    ensures { result ≡ due_first turn best }
{
    match times(turn.number, best.turns).cmp(&times(best.number, turn.turns)) {
        Ordering::Less => true,
        Ordering::Greater => false,
        Ordering::Equal => best.turns < turn.turns,
    }
}

// Whether a turn goes before another: one that has come before one that has not.
fn goes_first(turn: Turn, best: Turn) -> bool
    ensures { result ≡ goes_first turn best }
{
    match (turn.come, best.come) {
        (true, false) => true,
        (false, true) => false,
        _ => due_first(turn, best),
    }
}

fn better_of(last: u16, best: Turn, turn: Turn) -> Turn
    ensures { result ≡ better last best turn }
{
    if may_have(last, turn) && goes_first(turn, best) {
        turn
    } else {
        best
    }
}

/// A list as far as it is filled, and what decides the next address: how many turns there are in all, and how many places before it must
/// a turn may come.
#[derive(Clone, Copy)]
struct Front<'a> {
    addresses: &'a [u16],
    total: u16,
    early: u16,
    ghost small: { (length addresses.now ≤ 50) × (early ≤ 1) },
}

impl Front<'_> {
    // The next turn of a transmitter.
    fn turn_of(&self, share: Share) -> Turn
        ensures { result ≡ turn_of self.now.total self.now.early self.now.addresses.now share }
    {
        let had = count_in(self.addresses, share.address) as u16;
        let place = self.addresses.len() as u16 + self.early;
        let come = times(had, self.total) <= times(place, share.turns);
        Turn {
            address: share.address,
            turns: share.turns,
            number: had + 1,
            come,
        }
    }

    // The address of the turn that goes before all others.
    fn next_address(&self, wanted: &[u16]) -> u16
        ensures { result ≡ next_address self.now.total self.now.early (shares_in wanted.now) self.now.addresses.now }
    {
        let last = last_of(self.addresses);
        let none = Turn {
            address: 0,
            turns: 0,
            number: 1,
            come: false,
        };
        let best = shares_in(wanted).fold(none, |best, share| {
            better_of(last, best, self.turn_of(share))
        });
        best.address
    }
}

/// Fills a list of as many places as there are turns, each turn coming `early` places before it must.
pub fn spread_out(wanted: &[u16], early: u16, list: &mut [u16])
    requires { (length list.old ≤ 50) × (early ≤ 1) }
    ensures { list.new ≡ spread (length list.old) early (shares_in wanted.now) (length list.old) }
{
    let total = list.len() as u16;
    // By the place: each address comes from those that stand before it in the same list.
    for place in 0..list.len() {
        let front = Front {
            addresses: &list[..place],
            total,
            early,
        };
        list[place] = front.next_address(wanted);
    }
}
