// The number of set bits, padding apart.
ghost use Rattle.std.specs.Prelude.{◌≡◌, ◌%◌, ◌^◌, ◌<◌};
ghost use Rattle.model.specs.Below.{count_below};
ghost use Rattle.model.specs.Class.{blocks};
ghost use Rattle.model.specs.View.{bit_in};
ghost use Rattle.bitmap.specs.Tree.{OfClass};

use words::bits::{ones, ones_in};
use words::class::blocks;

// The first n bits of a word, and 0 behind them.
fn low_bits(w: u32, n: u32) -> u32
    requires { n < 32 }
    ensures { result ≡ w % 2 ^ n }
{
    w % (1 << n)
}

// How many blocks have their bit set. Where a class has fewer than 32 blocks, the rest of their one word is padding.
pub fn count(rec: &[u32], class: u32) -> u32
    requires { OfClass rec.now class }
    ensures { result ≡ count_below (blocks class) (bit_in rec.now) }
{
    let n = blocks(class);
    if n < 32 {
        return ones(low_bits(rec[1], n));
    }
    let words = (n / 32) as usize;
    ones_in(&rec[1..=words])
}
