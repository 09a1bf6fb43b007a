// The rule by which an address silo may start.
ghost use Rattle.std.specs.Prelude.{◌≡◌, ◌≤◌};
ghost use Rattle.silos.specs.Silo.{Sized};
ghost use Rattle.master.specs.Ring.{addresses_in, last_of, differ, may_start};

use silos::Silo;

// No two neighbours are equal around the ring, the last being the first's.
fn neighbours_differ(silo: Silo) -> bool
    requires { (1 ≤ silo.held) × Sized 50 silo }
    ensures { result ≡ differ (last_of (addresses_in silo)) (addresses_in silo) }
{
    let mut previous = silo.word_at(silo.count() - 1) % 32;
    for word in silo.words() {
        let address = word % 32;
        if address == previous {
            return false;
        }
        previous = address;
    }
    true
}

pub fn may_start(silo: Silo) -> bool
    requires { Sized 50 silo }
    ensures { result ≡ may_start (addresses_in silo) }
{
    if silo.count() < 20 {
        return false;
    }
    neighbours_differ(silo)
}
