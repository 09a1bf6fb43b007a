// Bytes and words of a record.
ghost use Rattle.std.specs.Prelude.{◌≡◌, ◌<◌};
ghost use Rattle.script.specs.Records.{byte_at, word_at};

// A byte of a record, or 0 past its end.
pub(crate) fn byte_at(bytes: &[u8], k: usize) -> u8
    ensures { result ≡ byte_at bytes.now k }
{
    bytes.get(k).copied().unwrap_or(0)
}

// Two bytes of a record, the low one first.
pub(crate) fn word_at(bytes: &[u8], k: usize) -> u16
    requires { k < 65536 }
    ensures { result ≡ word_at bytes.now k }
{
    u16::from_le_bytes([byte_at(bytes, k), byte_at(bytes, k + 1)])
}
