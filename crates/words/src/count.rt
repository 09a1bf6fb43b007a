// Bytes and words are counted apart: a register's arithmetic is on ByteCount, a message's length is a WordCount, and there is one
// conversion each way: `words` and `minus_bytes`.
ghost use Rattle.std.specs.Prelude.{◌≡◌, ◌≤◌};
ghost use Rattle.words.specs.Count.{count_written, count_after_word, words_of, minus_bytes_of};

// What TSBC and RDBC hold: minus the bytes left, in 16 bits.
#[derive(Clone, Copy, Default)]
pub struct ByteCount(pub u16);

// A number of words, 0 to 32,768.
#[derive(Clone, Copy)]
pub struct WordCount(pub u16);

impl ByteCount {
    // As the host writes it: bit 0 is dropped.
    pub fn written(word: u16) -> ByteCount
        ensures { result ≡ count_written word }
    {
        ByteCount(word / 2 * 2)
    }

    // A word has moved. The sum wraps to zero on purpose.
    pub fn after_word(self) -> ByteCount
        ensures { result ≡ count_after_word self }
    {
        ByteCount(self.0.wrapping_add(2))
    }

    // The words left at a count that is loaded.
    pub fn words(self) -> WordCount
        ensures { result ≡ words_of self }
    {
        WordCount(((65536 - self.0 as u32) / 2) as u16)
    }
}

impl WordCount {
    // The count to load for so many words: minus their bytes, in 16 bits.
    pub fn minus_bytes(self) -> ByteCount
        requires { self.0 ≤ 32768 }
        ensures { result ≡ minus_bytes_of self }
    {
        ByteCount(((65536 - self.0 as u32 * 2) % 65536) as u16)
    }
}
