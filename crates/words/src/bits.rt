// Bits of a word, by their places: bit 0 is the lowest. The places of the manual's bits stand in a file for each register.
pub mod rcr;
pub mod rsr;
pub mod tcr;
pub mod tmmr;
pub mod tsr;

ghost use Rattle.std.specs.Prelude.{◌≡◌, ◌<◌};
ghost use Rattle.laws.specs.Bits.{bits, bit_at, set_at};

// Whether a word has the bit at a place.
pub fn bit_at(word: u16, place: u16) -> bool
    requires { place < 16 }
    ensures { result ≡ bit_at word place }
{
    (word >> place) % 2 == 1
}

// The bits of a word from a place on, so many of them.
pub fn bits_at(word: u16, place: u16, width: u16) -> u16
    requires place_bound { place < 16 }
    requires width_bound { width < 16 }
    ensures { result ≡ bits word place width }
{
    (word >> place) % (1 << width)
}

// A flag at its place, and no other bit.
pub fn set_at(place: u16, flag: bool) -> u16
    requires { place < 16 }
    ensures { result ≡ set_at place flag }
{
    (flag as u16) << place
}
