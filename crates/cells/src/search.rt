// A unit by its address, and by SEC: the units are looked through. The answer is what `break` yields.
ghost use Rattle.std.specs.Prelude.{true, ◌≡◌, IfSome};
ghost use Rattle.cells.specs.Fitted.{Fitted};
ghost use Rattle.cells.specs.Layout.{count_in};
ghost use Rattle.cells.specs.Ranges.{in_range};
ghost use Rattle.cells.specs.Search.{number_in, named, first_found, first_secondary};

use crate::units::{address_in, count, secondary_in};

// What a search goes by: 0 the transmitter address, 1 the receiver address, 2 SEC.
fn number_in(cells: &[u16], k: usize, u: usize) -> usize
    requires { Fitted cells.now u }
    ensures { result ≡ number_in cells.now k u }
{
    if k < 2 {
        return address_in(cells, k, u);
    }
    secondary_in(cells, u)
}

// The first unit whose number k is the one wanted.
pub fn find(cells: &[u16], k: usize, wanted: usize) -> Option<usize>
    requires { in_range cells.now ≡ true }
    ensures unit { result ≡ named (first_found (number_in cells.now k) wanted (count_in cells.now) 0) }
    ensures fitted { IfSome result (Fitted cells.now) }
{
    let units = count(cells);
    let mut u = 0;
    let found = loop {
        if u == units {
            break None;
        }
        if number_in(cells, k, u) == wanted {
            break Some(u);
        }
        u += 1;
    };
    found
}

// The lowest unit with SEC.
pub fn find_secondary(cells: &[u16]) -> Option<usize>
    requires { in_range cells.now ≡ true }
    ensures unit { result ≡ named (first_secondary cells.now (count_in cells.now)) }
    ensures fitted { IfSome result (Fitted cells.now) }
{
    find(cells, 2, 1)
}
