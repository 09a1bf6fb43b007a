// An 18-bit byte address: EA17, EA16 and the sixteen bits of TSBA or RDBA.
ghost use Rattle.std.specs.Prelude.{◌≡◌, ◌<◌};
ghost use Rattle.words.specs.Address.{at, address_of, next_address, is_last, low_of, extension_of, place_of};

// Below 2^18, and even: it names a word.
#[derive(Clone, Copy, Default)]
pub struct Address(pub u32);

impl Address {
    // Made of its two parts: bit 0 is dropped.
    pub fn of(extension: u16, low: u16) -> Address
        requires { extension < 4 }
        ensures { result ≡ at (address_of extension low) }
    {
        Address(extension as u32 * 65536 + (low / 2 * 2) as u32)
    }

    // EA17 and EA16, as a number of two bits.
    pub fn extension(self) -> u16
        requires { self.0 < 262144 }
        ensures { result ≡ extension_of self.0 }
    {
        (self.0 / 65536) as u16
    }

    // What TSBA or RDBA shows.
    pub fn low(self) -> u16
        ensures { result ≡ low_of self.0 }
    {
        (self.0 % 65536) as u16
    }

    // Whether the next address wraps: 777776, octal.
    pub fn is_last(self) -> bool
        ensures { result ≡ is_last self.0 }
    {
        self.0 == 262142
    }

    pub fn next(self) -> Address
        requires { self.0 < 262144 }
        ensures { result ≡ at (next_address self.0) }
    {
        Address((self.0 + 2) % 262144)
    }

    // The word of a memory of so many words that the address names, or the address itself, which names none.
    pub fn place(self, memory: usize) -> Result<usize, u32>
        ensures { result ≡ place_of self.0 memory }
    {
        let word = (self.0 / 2) as usize;
        if word < memory { Ok(word) } else { Err(self.0) }
    }
}
