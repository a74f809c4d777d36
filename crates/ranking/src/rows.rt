// A row of words by segment.
ghost use Rattle.std.specs.Prelude.{ℕ, ◌≤◌, ◌<◌};
ghost use Rattle.model.specs.Word.{word};

// What f gives for each of n segments; 0 behind them.
pub(crate) fn by_segment<F: Fn(u32) -> u32>(n: u32, f: F) -> [u32; 64]
    requires few { n ≤ 64 }
    requires callable { (s : ℕ) → s < n → F.pre f s }
    ensures { (s : ℕ) → s < n → F.post f s (word result s) }
{
    let mut row = [0; 64];
    // By number: f takes it, and a place in the row would have to be made one again.
    for s in 0..n {
        row[s as usize] = f(s);
    }
    row
}
