// A data silo's ring by its one cell: where its oldest word stands, where one is put, and the cell without the oldest.
ghost use Rattle.std.specs.Prelude.{◌≡◌, ◌≤◌, ◌<◌};
ghost use Rattle.plain.specs.Places.{front, behind, without_oldest};

pub fn front_of(ring: u16) -> usize
    ensures { (result ≡ front ring) × (result < 64) }
{
    (ring % 64) as usize
}

pub fn behind_of(ring: u16) -> usize
    ensures { (result ≡ behind ring) × (result < 64) }
{
    ((ring % 64 + ring / 64) % 64) as usize
}

pub fn without_oldest(ring: u16) -> u16
    requires { 64 ≤ ring }
    ensures { result ≡ without_oldest ring }
{
    (ring % 64 + 1) % 64 + (ring / 64 - 1) * 64
}
