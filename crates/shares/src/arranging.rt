// A list for every load that has one: blocks, the largest first, and their two halves in turn.
ghost use Rattle.std.specs.Prelude.{◌≡◌, ◌<◌, ◌+◌, ◌^◌, get_or, length};
ghost use Rattle.shares.specs.Arranging.{turns_but, row_of, woven_from, in_turn};
ghost use Rattle.shares.specs.Wanted.{shares_in};

use crate::wanted::{Share, shares_in};

// The turns of a transmitter behind the first block, which is that of `first`.
fn turns_but(first: u16, share: Share) -> usize
    ensures { result ≡ turns_but first share }
{
    if share.address == first {
        0
    } else {
        usize::from(share.turns)
    }
}

// The address at a place of the row of blocks, or 0 past its end.
fn block_address(wanted: &[u16], first: Share, place: usize) -> u16
    ensures { result ≡ get_or (row_of first (shares_in wanted.now)) place 0 }
{
    let Some(mut left) = place.checked_sub(usize::from(first.turns)) else {
        return first.address;
    };
    for share in shares_in(wanted) {
        let turns = turns_but(first.address, share);
        if left < turns {
            return share.address;
        }
        left -= turns;
    }
    0
}

// Where in the row the address of a place of the list comes from: the even places take the first half, the odd ones the second.
fn source(place: usize, half: usize) -> usize
    requires { half + place < 2 ^ 64 }
    ensures { result ≡ woven_from half place }
{
    if place % 2 == 0 {
        place / 2
    } else {
        half + place / 2
    }
}

/// Fills a list of as many places as there are turns with the halves of the row in turn, the block of `first` at its front.
pub fn arrange(wanted: &[u16], first: Share, list: &mut [u16])
    requires { length list.old ≡ length (row_of first (shares_in wanted.now)) }
    ensures { list.new ≡ in_turn (row_of first (shares_in wanted.now)) }
{
    let half = (list.len() + 1) / 2;
    for (place, address) in list.iter_mut().enumerate() {
        *address = block_address(wanted, first, source(place, half));
    }
}
