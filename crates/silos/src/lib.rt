// A silo: words in, and out again in their order. Only this crate knows how they lie in the cells.
#![tactic(auto)]

ghost use Rattle.std.specs.Prelude.{◌≡◌, ◌≤◌, get_or, length};
ghost use Rattle.silos.specs.Silo.{no_words, words, count, is_empty, has_room, oldest, put, taken};
ghost use Rattle.silos.specs.Cells.{shifted};

// The words of a data silo, and the addresses of an address silo. A silo of 50 is one of 64 that is used to 50.
pub const WORDS: u16 = 64;

pub const ADDRESSES: u16 = 50;

// The first `held` cells hold the words, the oldest first. Taking moves the others down and leaves the freed cell 0.
#[derive(Clone, Copy)]
pub struct Silo {
    pub cells: [u16; 64],
    pub held: u16,
}

// All cells down by one, and 0 in the last. Over a slice, so that it is proved once for every size.
fn shift(cells: &mut [u16])
    requires { 1 ≤ length cells.old }
    ensures { cells.new ≡ shifted cells.old }
{
    cells.copy_within(1.., 0);
    let last = cells.len() - 1;
    cells[last] = 0;
}

impl Silo {
    pub fn empty() -> Silo
        ensures { result ≡ no_words }
    {
        Silo {
            cells: [0u16; 64],
            held: 0,
        }
    }

    pub fn is_empty(self) -> bool
        ensures { result ≡ is_empty self }
    {
        self.held == 0
    }

    pub fn has_room(self, size: u16) -> bool
        ensures { result ≡ has_room size self }
    {
        self.held < size
    }

    // The oldest word, or 0 where there is none.
    pub fn oldest(self) -> u16
        ensures { result ≡ oldest self }
    {
        if self.held == 0 {
            return 0;
        }
        self.cells[0]
    }

    pub fn count(self) -> u16
        ensures { result ≡ count self }
    {
        self.held
    }

    // The words, the oldest first.
    pub fn words(&self) -> &[u16]
        requires { self.now.held ≤ 64 }
        ensures { result.now ≡ words self.now }
    {
        &self.cells[..self.held as usize]
    }

    // The word that is i-th from the oldest on, counted from 0, or 0 where there is none.
    pub fn word_at(self, i: u16) -> u16
        requires { self.held ≤ 64 }
        ensures { result ≡ get_or (words self) i 0 }
    {
        if i < self.held {
            let at = i as usize;
            return self.cells[at];
        }
        0
    }

    // With one word more. A silo that holds `size` words takes none.
    pub fn put(self, size: u16, word: u16) -> Silo
        requires { size ≤ 64 }
        ensures { result ≡ put size self word }
    {
        if self.held < size {
            let free = self.held as usize;
            let mut silo = self;
            silo.cells[free] = word;
            silo.held = silo.held + 1;
            return silo;
        }
        self
    }

    // Without its oldest word. An empty silo stays as it is.
    pub fn take(self) -> Silo
        ensures { result ≡ taken self }
    {
        if self.held == 0 {
            return self;
        }
        let mut cells = self.cells;
        shift(&mut cells);
        Silo {
            cells,
            held: self.held - 1,
        }
    }
}
