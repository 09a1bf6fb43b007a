// A fitted unit's sides: out of the cells, and put back into them.
ghost use Rattle.std.specs.Prelude.{◌≡◌, ◌+◌};
ghost use Rattle.cells.specs.Fitted.{Fitted, put_next};
ghost use Rattle.cells.specs.Layout.{unit_place};
ghost use Rattle.codec.specs.Window.{window, splice};
ghost use Rattle.master.specs.Side as M;

use crate::layout::{BLOCK, HEADER, MASTER};
use codec::in_window::{InWindow, load, store};
use codec::masters::store_next;
use master::side::Master;

// A side of a unit: its transmitter, its receiver or its master section.
pub fn side<S: InWindow>(cells: &[u16], unit: usize) -> S
    requires { Fitted cells.now unit }
    ensures value { result ≡ S.decoded (window cells.now (unit_place unit + S.PLACE) S.SIZE) }
    ensures within { S.Within result }
{
    load(cells, HEADER + unit * BLOCK + S::PLACE)
}

// A side of a unit put back.
pub fn put<S: InWindow>(cells: &mut [u16], unit: usize, side: S)
    requires fitted { Fitted cells.old unit }
    requires within { S.Within side }
    ensures { cells.new ≡ splice cells.old (unit_place unit + S.PLACE) (S.encoded (window cells.old (unit_place unit + S.PLACE) S.SIZE) side) }
{
    store(cells, HEADER + unit * BLOCK + S::PLACE, side);
}

// A section gone on by a slice.
pub fn put_next(cells: &mut [u16], unit: usize, m: Master)
    requires { Fitted cells.old unit × M.Within m }
    ensures { cells.new ≡ put_next cells.old unit m }
{
    store_next(cells, HEADER + unit * BLOCK + MASTER, m);
}
