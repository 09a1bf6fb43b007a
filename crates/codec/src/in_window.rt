// What lies in a window of a unit's block: how large the window is, where it stands there, and how it is read out of its cells and put into them.
ghost use Rattle.std.specs.Prelude.{◌≡◌, ◌+◌, ◌≤◌, length};
ghost use Rattle.codec.specs.Window.{window, splice};

// A transmitter, a receiver or a master section. Whatever the cells hold, what is read is within its values; and it is put into its window over what
// stood there.
pub trait InWindow: Copy {
    ghost use Rattle.std.specs.Prelude.{List, ℕ};

    // Where the window stands in a unit's block, and how many cells it has.
    ghost PLACE: { ℕ };

    ghost SIZE: { ℕ };

    ghost decoded: { List ℕ → Self };

    ghost encoded: { List ℕ → Self → List ℕ };

    // What the rules ask of its values.
    ghost Within: { Self → Type 0 };

    const PLACE: usize;

    const SIZE: usize;

    fn decode(cells: &[u16]) -> Self
        requires { length cells.now ≡ SIZE }
        ensures value { result ≡ decoded cells.now }
        ensures within { Within result };

    fn encode(self, cells: &mut [u16])
        requires whole { length cells.old ≡ SIZE }
        requires within { Within self }
        ensures { cells.new ≡ encoded cells.old self };

    // The window is in the block.
    ghost inside: { PLACE + SIZE ≤ 202 };
}

// What the cells hold at `at`.
pub fn load<S: InWindow>(cells: &[u16], at: usize) -> S
    requires { at + S.SIZE ≤ length cells.now }
    ensures value { result ≡ S.decoded (window cells.now at S.SIZE) }
    ensures within { S.Within result }
{
    S::decode(&cells[at..at + S::SIZE])
}

// A side into the cells at `at`.
pub fn store<S: InWindow>(cells: &mut [u16], at: usize, side: S)
    requires room { at + S.SIZE ≤ length cells.old }
    requires within { S.Within side }
    ensures { cells.new ≡ splice cells.old at (S.encoded (window cells.old at S.SIZE) side) }
{
    side.encode(&mut cells[at..at + S::SIZE]);
}
