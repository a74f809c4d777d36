// The class table, and the class of a block. A class is a number from 3 to 12: a type for these would ask more of a caller, and
// docs/STATEMENTS.md names the functions that take one.
ghost use Rattle.std.specs.Prelude.{◌≡◌, ◌<◌, ◌≤◌};
ghost use Rattle.model.specs.Class.{blocks, block_words, level_words, class_of};

// Document 01's table, a row for each class from 3 on: its words at level 0, 1 and 2.
const LEVEL_WORDS: [[u32; 3]; 10] = [
    [64, 2, 1],
    [32, 1, 0],
    [16, 1, 0],
    [8, 1, 0],
    [4, 1, 0],
    [2, 1, 0],
    [1, 0, 0],
    [1, 0, 0],
    [1, 0, 0],
    [1, 0, 0],
];

pub fn level_words(class: u32, level: u32) -> u32
    requires { (3 ≤ class) × (class ≤ 12) × (level < 3) }
    ensures { result ≡ level_words class level }
{
    LEVEL_WORDS[(class - 3) as usize][level as usize]
}

// How many blocks a segment of a class has: a block of class i has 2^i of the area's 16,384 bytes.
pub fn blocks(class: u32) -> u32
    requires { class < 32 }
    ensures { result ≡ blocks class }
{
    16384 >> class
}

// How many words a block of a class has.
pub fn block_words(class: u32) -> u32
    requires { class < 32 }
    ensures { result ≡ block_words class }
{
    (1 << class) / 4
}

// The class for n: the smallest of at least 3 whose blocks have room for a header and n words. A block of class i has 2^(i - 2) words, so i
// is 2 more than the length of n in bits.
pub fn class_of(n: u32) -> u32
    ensures { result ≡ class_of n }
{
    if n == 0 {
        return 3;
    }
    34 - n.leading_zeros()
}
