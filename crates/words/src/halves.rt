// A byte write changes one half of a register and keeps the other.
ghost use Rattle.std.specs.Prelude.{◌≡◌};
ghost use Rattle.words.specs.Halves.{with_half, even_below};

// The even offset of the register that a byte offset belongs to.
pub fn register_offset(offset: u32) -> u32
    ensures { result ≡ even_below offset }
{
    offset / 2 * 2
}

// The register's word with the half at a byte offset replaced: the odd offset is the high byte.
pub fn with_half(word: u16, offset: u32, byte: u8) -> u16
    ensures { result ≡ with_half word offset byte }
{
    if offset % 2 == 1 {
        return word % 256 + byte as u16 * 256;
    }
    word / 256 * 256 + byte as u16
}
