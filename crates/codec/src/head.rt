// The head of a side in its lent cells, each cell by its name: for whoever reads a few of them in place and makes no side a record.
ghost use Rattle.std.specs.Prelude.{◌≡◌, ◌+◌, ◌≤◌, length};
ghost use Rattle.codec.specs.Head.{head_in, moved_on, cells_of};
ghost use Rattle.codec.specs.Window.{splice};

// What the cells mean is said where they are made: `codec/specs/Ends.antt`, "the places of its cells".
#[derive(Clone, Copy)]
pub struct Head {
    pub ring: u16,
    pub block: u16,
    pub own: u16,
    pub low: u16,
    pub count: u16,
    pub control: u16,
    pub status: u16,
    pub crc: u16,
    pub serial: u16,
}

impl Head {
    /// The head of the side at a place of the cells.
    pub fn load(cells: &[u16], at: usize) -> Self
        requires { at + 9 ≤ length cells.now }
        ensures { result ≡ head_in cells.now at }
    {
        Self {
            ring: cells[at],
            block: cells[at + 1],
            own: cells[at + 2],
            low: cells[at + 3],
            count: cells[at + 4],
            control: cells[at + 5],
            status: cells[at + 6],
            crc: cells[at + 7],
            serial: cells[at + 8],
        }
    }

    /// The head with its load so many words on, in address and in count. Neither leaves its 15 bits.
    pub fn moved_on(self, words: u16) -> Self
        requires { (self.low + words ≤ 32767) × (self.count + words ≤ 32767) }
        ensures { result ≡ moved_on self words }
    {
        Self {
            low: self.low + words,
            count: self.count + words,
            ..self
        }
    }

    /// The head into the cells at a place, where it takes the place of the nine that stood there.
    pub fn store(self, cells: &mut [u16], at: usize)
        requires { at + 9 ≤ length cells.old }
        ensures { cells.new ≡ splice cells.old at (cells_of self) }
    {
        cells[at] = self.ring;
        cells[at + 1] = self.block;
        cells[at + 2] = self.own;
        cells[at + 3] = self.low;
        cells[at + 4] = self.count;
        cells[at + 5] = self.control;
        cells[at + 6] = self.status;
        cells[at + 7] = self.crc;
        cells[at + 8] = self.serial;
    }
}
