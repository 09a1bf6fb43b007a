// How a number is read that may stand outside the values it may take.
ghost use Rattle.std.specs.Prelude.{◌≡◌, min};

// Above the most it may be, it is the most.
pub fn read_most(number: u16, most: u16) -> u16
    ensures { result ≡ min most number }
{
    number.min(most)
}
