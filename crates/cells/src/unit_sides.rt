// The sides of a fitted unit: out of its cells, and put back into them.
ghost use Rattle.std.specs.Prelude.{◌≡◌, ◌+◌};
ghost use Rattle.cells.specs.Layout.{unit_place};
ghost use Rattle.cells.specs.Unit.{Same};
ghost use Rattle.codec.specs.Window.{window, splice};

use crate::sides;
use crate::unit::Unit;
use codec::in_window::InWindow;

impl<'a> Unit<'a> {
    // Its transmitter, its receiver or its master section.
    pub fn side<S: InWindow>(&self) -> S
        ensures value { result ≡ S.decoded (window self.now.cells.now (unit_place self.now.number + S.PLACE) S.SIZE) }
        ensures within { S.Within result }
    {
        let number = self.number;
        let cells = &*self.cells;
        sides::side(cells, number)
    }

    // One of them put back.
    pub fn put<S: InWindow>(&mut self, side: S)
        requires { S.Within side }
        ensures put { self.new.cells.now ≡ splice self.old.cells.now (unit_place self.old.number + S.PLACE) (S.encoded (window self.old.cells.now (unit_place self.old.number + S.PLACE) S.SIZE) side) }
        ensures same { Same self.old self.new }
    {
        let number = self.number;
        sides::put(self.cells, number, side);
    }
}
