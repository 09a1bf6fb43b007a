// Whether a list is one that the planner asks for.
ghost use Rattle.std.specs.Prelude.{◌≡◌, ◌<◌, ◌^◌, length};
ghost use Rattle.shares.specs.Lists.{count, last_of};
ghost use Rattle.shares.specs.Tested.{differ, all_named, all_counted, loadable};
ghost use Rattle.shares.specs.Wanted.{shares_in};

use crate::wanted::{names, shares_in};

// How often an address stands in a part that 16 bits can count: the processor holds eight of its addresses against it at once.
fn count_in_part(part: &[u16], address: u16) -> u16
    requires { length part.now < 2 ^ 16 }
    ensures { result ≡ count address part.now }
{
    let mut found = 0;
    for &there in part {
        found += u16::from(there == address);
    }
    found
}

/// How often an address stands in a list.
pub fn count_in(list: &[u16], address: u16) -> usize
    ensures { result ≡ count address list.now }
{
    let mut found = 0;
    for part in list.chunks(usize::from(u16::MAX)) {
        found += usize::from(count_in_part(part, address));
    }
    found
}

/// The last address of a list, or 0.
pub fn last_of(list: &[u16]) -> u16
    ensures { result ≡ last_of list.now }
{
    list.last().copied().unwrap_or(0)
}

// No two neighbours are equal around the ring, the last being the first's.
fn neighbours_differ(list: &[u16]) -> bool
    ensures { result ≡ differ (last_of list.now) list.now }
{
    let mut previous = last_of(list);
    for &address in list {
        if address == previous {
            return false;
        }
        previous = address;
    }
    true
}

// Every address of a list is a wanted one.
fn all_named(wanted: &[u16], list: &[u16]) -> bool
    ensures { result ≡ all_named (shares_in wanted.now) list.now }
{
    list.iter().all(|address| names(wanted, *address))
}

// Every transmitter has its turns in a list.
fn all_counted(wanted: &[u16], list: &[u16]) -> bool
    ensures { result ≡ all_counted (shares_in wanted.now) list.now }
{
    shares_in(wanted).all(|share| count_in(list, share.address) == usize::from(share.turns))
}

/// Whether a list is one that the planner asks for.
pub fn is_loadable(wanted: &[u16], list: &[u16]) -> bool
    ensures { result ≡ loadable (shares_in wanted.now) list.now }
{
    (20..=50).contains(&list.len())
        && all_named(wanted, list)
        && all_counted(wanted, list)
        && neighbours_differ(list)
}
