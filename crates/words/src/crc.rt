// CRC-16. Only this file knows how a CRC is run.
ghost use Rattle.std.specs.Prelude.{◌≡◌};
ghost use Rattle.words.specs.Crc.{crc_word};
ghost use Rattle.words.specs.Laws.CrcSteps.{step};

const WORD_BITS: u16 = 16;

// One shift of the register with no new bit: the polynomial goes in where a one is shifted out.
fn shift(crc: u16) -> u16
    ensures { result ≡ step crc }
{
    if crc % 2 == 0 {
        crc >> 1
    } else {
        (crc >> 1) ^ 0xa001
    }
}

// The CRC with one word more, as the logic prints have it: all sixteen bits go in at once, and sixteen shifts follow.
pub fn crc_with_word(crc: u16, word: u16) -> u16
    ensures { result ≡ crc_word crc word }
{
    let mut register = crc ^ word;
    for _ in 0..WORD_BITS {
        register = shift(register);
    }
    register
}
