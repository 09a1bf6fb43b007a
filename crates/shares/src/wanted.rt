// What a planner wants: two numbers for each transmitter, its address and its turns.
ghost use Rattle.std.specs.Prelude.{◌≡◌};
ghost use Rattle.shares.specs.Arranging.{larger, largest};
ghost use Rattle.shares.specs.Refusals.{outside, any_outside, named, any_twice, up_to51};
ghost use Rattle.shares.specs.Wanted.{shares_in, total};

/// A transmitter's address, and how many turns it wants.
#[derive(Clone, Copy, Default)]
pub struct Share {
    pub address: u16,
    pub turns: u16,
}

/// The shares that are left of a row of numbers, one after the other.
#[derive(Drop)]
pub struct Shares<'a> {
    numbers: &'a [u16],
}

impl<'a> Iterator for Shares<'a> {
    ghost use Rattle.std.specs.Iterator.{YieldsFirst, item_count};

    type Item = Share;

    ghost next_gives = { YieldsFirst (λ left. shares_in left.numbers.now) };

    ghost remaining = { item_count (λ left. shares_in left.numbers.now) };

    #[tactic(auto, using(crate::proofs::Laws::ChainLaws::no_share_left, crate::proofs::Laws::ChainLaws::first_share))]
    fn next(&mut self) -> Option<Share> {
        let [address, turns, rest @ ..] = self.numbers else {
            return None;
        };
        self.numbers = rest;
        Some(Share {
            address: *address,
            turns: *turns,
        })
    }
}

/// The shares of a row of numbers: a number that is left over is passed over.
pub fn shares_in(wanted: &[u16]) -> Shares<'_>
    ensures { result.numbers.now ≡ wanted.now }
{
    Shares { numbers: wanted }
}

fn is_outside(address: u16) -> bool
    ensures { result ≡ outside address }
{
    !(1..=31).contains(&address)
}

/// Whether an address that is wanted is none from 1 to 31.
pub fn any_outside(wanted: &[u16]) -> bool
    ensures { result ≡ any_outside (shares_in wanted.now) }
{
    shares_in(wanted).any(|share| is_outside(share.address))
}

/// Whether one of the transmitters that are left has the address.
pub fn names(wanted: &[u16], address: u16) -> bool
    ensures { result ≡ named address (shares_in wanted.now) }
{
    shares_in(wanted).any(|share| share.address == address)
}

/// Whether an address is wanted twice.
pub fn any_twice(wanted: &[u16]) -> bool
    ensures { result ≡ any_twice (shares_in wanted.now) }
{
    let mut left = shares_in(wanted);
    while let Some(share) = left.next() {
        if names(left.numbers, share.address) {
            return true;
        }
    }
    false
}

/// The sum of the turns, and 51 for any sum above 50.
pub fn total_up_to_51(wanted: &[u16]) -> u16
    ensures { result ≡ up_to51 (total (shares_in wanted.now)) }
{
    shares_in(wanted).fold(0, |sum: u16, share| sum.saturating_add(share.turns).min(51))
}

fn larger_of(most: Share, share: Share) -> Share
    ensures { result ≡ larger most share }
{
    if most.turns < share.turns {
        share
    } else {
        most
    }
}

/// The first of those that want the most turns.
pub fn largest_of(wanted: &[u16]) -> Share
    ensures { result ≡ largest (shares_in wanted.now) }
{
    shares_in(wanted).fold(Share::default(), larger_of)
}
