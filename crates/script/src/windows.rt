// The window that moves over the input.
ghost use Rattle.std.specs.Prelude.{List, ◌≡◌, ℕ, ◌≤◌, length};
ghost use Rattle.script.specs.Windows.{rest_kept};

// Moves what stands from `at` up to `end` to the front, and answers how many bytes that is. Where `at` and `end` are no such part,
// nothing is moved, and the answer is 0.
#[tactic(auto, using(crate::proofs::Runs::copied))]
pub fn keep_rest(window: &mut [u8], at: usize, end: usize) -> usize
    ensures fact { ◌≡◌ {A = ℕ × List ℕ} (result, window.new) (rest_kept window.old at end) }
    ensures within { result ≤ length window.old }
{
    if end < at || window.len() < end {
        return 0;
    }
    window.copy_within(at..end, 0);
    end - at
}
