// Windows of a slice.
ghost use Rattle.std.specs.Prelude.{◌≡◌, ◌+◌, ◌≤◌, length};
ghost use Rattle.codec.specs.Window.{splice};

// All of `w` into the window of `cells` at `at`.
pub fn put(cells: &mut [u16], at: usize, w: &[u16])
    requires { at + length w.now ≤ length cells.old }
    ensures { cells.new ≡ splice cells.old at w.now }
{
    cells[at..at + w.len()].copy_from_slice(w);
}
