// The response codes on the bus: A is the transmitter's, B the receiver's. The status registers show them.
ghost use Rattle.std.specs.Prelude.{◌≡◌};
ghost use Rattle.words.specs.Codes.{no_codes, codes_shown, codes_cleared};

// A and B, 0 to 3 each.
#[derive(Clone, Copy, Default)]
pub struct Codes {
    pub a: u16,
    pub b: u16,
}

impl Codes {
    pub fn none() -> Codes
        ensures { result ≡ no_codes }
    {
        Codes::default()
    }

    // After a slice with these codes. They are frozen where an error stood before it.
    pub fn show(self, frozen: bool, a: u16, b: u16) -> Codes
        ensures { result ≡ codes_shown self frozen a b }
    {
        if frozen {
            return self;
        }
        Codes { a, b }
    }

    // Cleared by SUC TXF.
    pub fn clear(self, success: bool) -> Codes
        ensures { result ≡ codes_cleared self success }
    {
        if success {
            return Codes::none();
        }
        self
    }
}
