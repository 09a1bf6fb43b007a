// A load of words: the byte count, whether it is loaded, and the address of the next word. Both ends have one.
ghost use Rattle.std.specs.Prelude.{◌≡◌, ◌<◌};
ghost use Rattle.words.specs.Load.{Bounded, no_load, words_left, count_loaded, low_loaded, extension_loaded, word_moved};

use crate::address::Address;
use crate::count::{ByteCount, WordCount};

#[derive(Clone, Copy, Default)]
pub struct Load {
    pub count: ByteCount,
    pub loaded: bool,
    pub address: Address,
}

// A load one word on, and whether its address wrapped.
#[derive(Clone, Copy)]
pub struct Advance {
    pub load: Load,
    pub overflow: bool,
}

impl Load {
    pub fn none() -> Load
        ensures { result ≡ no_load }
    {
        Load::default()
    }

    // A written 0 means 65,536 bytes; not loaded, none left.
    pub fn left(self) -> WordCount
        ensures { result.0 ≡ words_left self }
    {
        if self.loaded {
            return self.count.words();
        }
        WordCount(0)
    }

    // TSBC or RDBC written: that marks it loaded.
    pub fn with_count(self, word: u16) -> Load
        ensures { result ≡ count_loaded self word }
    {
        Load {
            count: ByteCount::written(word),
            loaded: true,
            ..self
        }
    }

    // TSBA or RDBA written.
    pub fn with_low(self, word: u16) -> Load
        requires { Bounded self }
        ensures { result ≡ low_loaded self word }
    {
        Load {
            address: Address::of(self.address.extension(), word),
            ..self
        }
    }

    // EA17 and EA16 written.
    pub fn with_extension(self, extension: u16) -> Load
        requires { extension < 4 }
        ensures { result ≡ extension_loaded self extension }
    {
        Load {
            address: Address::of(extension, self.address.low()),
            ..self
        }
    }

    // A word has moved: 2 more in the count, whose wrapped zero ends the load, and in the address unless that is inhibited.
    pub fn word_moved(self, inhibit: bool) -> Advance
        requires { Bounded self }
        ensures { result ≡ word_moved self inhibit }
    {
        let count = self.count.after_word();
        let loaded = count.0 != 0;
        if inhibit {
            return Advance {
                load: Load {
                    count,
                    loaded,
                    ..self
                },
                overflow: false,
            };
        }
        Advance {
            load: Load {
                count,
                loaded,
                address: self.address.next(),
            },
            overflow: self.address.is_last(),
        }
    }
}
