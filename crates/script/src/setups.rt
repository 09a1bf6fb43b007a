// The set-up that a fit's record holds.
ghost use Rattle.std.specs.Prelude.{List, ◌≡◌, ℕ, ◌+◌, ◌*◌, ◌≤◌, length, drop};
ghost use Rattle.std.proofs.lemmas.List.Edits.{sets};
ghost use Rattle.script.specs.SetUps.{unit_at, units_at, set_up_put};

use crate::bytes::byte_at;

// The length of each memory in words.
pub const MEMORY: u32 = 64;

// The numbers of a fit of 255 units, the most that a record has.
pub const NUMBERS: usize = 1020;

// The four numbers of the unit whose bytes stand from `at` on.
#[tactic(auto, using(crate::proofs::Runs::laid))]
fn put_unit(bytes: &[u8], at: usize, numbers: &mut [u32], to: usize)
    requires { (at + 3 ≤ length bytes.now) × (to + 4 ≤ length numbers.old) }
    ensures { numbers.new ≡ sets numbers.old to (unit_at bytes.now at) }
{
    let transmitter = byte_at(bytes, at) as u32;
    let receiver = byte_at(bytes, at + 1) as u32;
    let switch = byte_at(bytes, at + 2) as u32;
    numbers[to..to + 4].copy_from_slice(&[transmitter, receiver, switch, MEMORY]);
}

// Unit after unit by its number: of what is written through `chunks_exact_mut` the library says no more than how much it is.
fn put_units(bytes: &[u8], count: usize, numbers: &mut [u32])
    requires { (3 * count ≤ length bytes.now) × (4 * count ≤ length numbers.old) }
    ensures { numbers.new ≡ sets numbers.old 0 (units_at count bytes.now) }
{
    for unit in 0..count {
        put_unit(bytes, 3 * unit, numbers, 4 * unit);
    }
}

// Puts the set-up of so many units, whose bytes stand in a window from `at` on, into `numbers`, and answers how many numbers it
// has. Where the one or the other is too short, nothing is put, and the answer is 0.
pub fn put_set_up(window: &[u8], at: usize, count: u8, numbers: &mut [u32]) -> usize
    ensures { ◌≡◌ {A = ℕ × List ℕ} (result, numbers.new) (set_up_put (drop at window.now) count numbers.old) }
{
    let bytes = window.get(at..).unwrap_or(&[]);
    let units = count as usize;
    if bytes.len() < 3 * units || numbers.len() < 4 * units {
        return 0;
    }
    put_units(bytes, units, numbers);
    4 * units
}
