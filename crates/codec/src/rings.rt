// A silo's words in a ring of cells, which goes round at its end.
ghost use Rattle.std.specs.Prelude.{◌++◌, ◌≡◌, ◌+◌, ◌-◌, ◌≤◌, ◌<◌, length, take, drop};
ghost use Rattle.silos.specs.Silo.{words};
ghost use Rattle.codec.specs.Rings.{around, round_from, silo_of, start_in, length_in, start_for, start_next, laid_from};

use crate::readings::read_most;
use silos::Silo;

// A place that lies past the last one goes round.
pub fn go_around(size: usize, place: usize) -> usize
    requires { place < size + size }
    ensures { result ≡ around size place }
{
    if place < size {
        return place;
    }
    place - size
}

// The first `held` words from `start` on, in order.
pub fn unroll(words: &mut [u16], ring: &[u16], start: usize, held: usize)
    requires { (start < length ring.now) × (held ≤ length ring.now) × (held ≤ length words.old) }
    ensures { words.new ≡ take held (round_from start ring.now) ++ drop held words.old }
{
    // Word by word: most silos are short or empty, and a copy of a length that is not known is a call.
    for (i, word) in words[..held].iter_mut().enumerate() {
        *word = ring[go_around(ring.len(), start + i)];
    }
}

// The first `held` words into the ring from `start` on.
pub fn lay(ring: &mut [u16], words: &[u16], start: usize, held: usize)
    requires { (start < length ring.old) × (held ≤ length ring.old) × (held ≤ length words.now) }
    ensures { ring.new ≡ laid_from start (take held words.now) ring.old }
{
    // Word by word, as in `unroll`.
    let size = ring.len();
    for (i, word) in words[..held].iter().enumerate() {
        ring[go_around(size, start + i)] = *word;
    }
}

// The start place that a silo's cell names.
pub fn start_in(size: u16, cell: u16) -> u16
    requires { 1 ≤ size }
    ensures { result ≡ start_in size cell }
{
    cell % 64 % size
}

// How many words it says.
pub fn length_in(size: u16, cell: u16) -> u16
    ensures { result ≡ length_in size cell }
{
    read_most(cell / 64, size)
}

// A start place so many words further on.
fn start_on(size: u16, start: u16, gone: u16) -> u16
    requires { (size ≤ 64) × (start < size) × (gone ≤ size) }
    ensures { result ≡ around size (start + gone) }
{
    go_around(size as usize, (start + gone) as usize) as u16
}

// The start place where so many words are held now.
pub fn start_for(size: u16, cell: u16, held: u16) -> u16
    requires { (1 ≤ size) × (size ≤ 64) }
    ensures { result ≡ start_for size cell held }
{
    start_on(
        size,
        start_in(size, cell),
        length_in(size, cell).saturating_sub(held),
    )
}

// The start place one further on.
pub fn start_next(size: u16, cell: u16) -> u16
    requires { (1 ≤ size) × (size ≤ 64) }
    ensures { result ≡ start_next size cell }
{
    start_on(size, start_in(size, cell), 1)
}

// The silo of a ring of N cells, of which another cell has the start place and the length.
pub fn silo_of<const N: u16>(cell: u16, ring: &[u16]) -> Silo
    requires size { (1 ≤ N) × (N ≤ 64) }
    requires whole { length ring.now ≡ N }
    ensures { result ≡ silo_of N cell ring.now }
{
    let start = start_in(N, cell);
    let held = length_in(N, cell);
    let mut cells = [0u16; 64];
    unroll(&mut cells, ring, start as usize, held as usize);
    Silo { cells, held }
}

// A silo's words into a ring from a place on.
pub fn lay_silo(ring: &mut [u16], silo: Silo, start: u16)
    requires { (start < length ring.old) × (silo.held ≤ length ring.old) × (silo.held ≤ 64) }
    ensures { ring.new ≡ laid_from start (words silo) ring.old }
{
    lay(ring, &silo.cells, start as usize, silo.held as usize);
}
