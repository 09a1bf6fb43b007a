// The parity line beside the sixteen data lines.
ghost use Rattle.std.specs.Prelude.{◌≡◌};
ghost use Rattle.words.specs.Parity.{parity_of, good_parity};

// The parity line of a word: it makes the count of ones in seventeen lines odd.
pub fn parity_line(word: u16) -> bool
    ensures { result ≡ parity_of word }
{
    word.count_ones() % 2 == 0
}

// Whether the ones on the data lines and on the parity line, counted together, are odd.
pub fn parity_is_good(word: u16, line: bool) -> bool
    ensures { result ≡ good_parity word line }
{
    (word.count_ones() + u32::from(line)) % 2 == 1
}
