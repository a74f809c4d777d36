// Bits of a word, counted from the least significant: what bitmaps are made of.
ghost use Rattle.std.specs.Prelude.{◌≡◌, not, ◌||◌, ◌-◌, ◌<◌, ◌≤◌, eqb, leb, length};
ghost use Rattle.model.specs.Below.{count_below, first_from, sum_below};
ghost use Rattle.model.specs.Word.{word, bit, word_of_bits};

pub fn bit(w: u32, b: u32) -> bool
    requires { b < 32 }
    ensures { result ≡ bit w b }
{
    (w >> b) % 2 == 1
}

// The word with bit b set.
pub fn with_bit(w: u32, b: u32) -> u32
    requires { b < 32 }
    ensures { result ≡ word_of_bits (λ j. eqb j b || bit w j) }
{
    w | (1 << b)
}

// The word that is 1 from bit n on.
pub fn ones_from(n: u32) -> u32
    ensures { result ≡ word_of_bits (λ b. leb n b) }
{
    u32::MAX.unbounded_shl(n)
}

// The first bit at or after b that is 0, and 32 where there is none, since docs/STATEMENTS.md names that number.
pub fn first_free(w: u32, b: u32) -> u32
    requires { b ≤ 32 }
    ensures { result ≡ first_from b (32 - b) (λ j. not (bit w j)) }
{
    if b == 32 {
        return 32;
    }
    b + (!(w >> b)).trailing_zeros()
}

// How many bits are 1.
pub fn ones(w: u32) -> u32
    ensures { result ≡ count_below 32 (bit w) }
{
    w.count_ones()
}

// The ones of some words.
pub fn ones_in(ws: &[u32]) -> u32
    requires { length ws.now ≤ 4096 }
    ensures { result ≡ sum_below (length ws.now) (λ j. count_below 32 (bit (word ws.now j))) }
{
    ws.iter().map(|w| ones(*w)).sum()
}
