// A fitted unit of the lent cells.
ghost use Rattle.std.specs.Prelude.{◌≡◌};
ghost use Rattle.cells.specs.Fitted.{Fitted};

#[derive(Drop)]
pub struct Unit<'a> {
    pub cells: &'a mut [u16],
    pub number: usize,
    ghost fitted: { Fitted cells.now number },
}

impl<'a> Unit<'a> {
    // The unit of that number.
    pub fn new(cells: &'a mut [u16], number: usize) -> Self
        requires { Fitted cells.now number }
        ensures cells { result.cells ≡ cells.entry }
        ensures number { result.number ≡ number }
    {
        Unit { cells, number }
    }
}
