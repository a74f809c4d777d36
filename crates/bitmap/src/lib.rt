// The bitmap tree of one segment, on the 68 words of its record.
//
// Level 0 has a bit for each block. Where a level has more than one word, the next level has a bit for
// each of these words, which is 1 exactly if the whole word is ones; bits past the end of a level are 1,
// and words that a class does not use are 0. So a free block is found by climbing to the first word that
// is not full and coming down again, and a bit that is set climbs only where it fills its word.
//
// Each public function takes a record as its 68 words with the class beside them, as docs/STATEMENTS.md names it, so a type
// that keeps these facts is one of private functions (`Level` of search).
//
// Shown here of each operation: the record afterwards, word by word, and the answer, against the levels of
// document 01 as crate model states them.

#![tactic(auto)]

pub mod climb;
pub mod count;
pub mod fresh;
pub mod levels;
pub mod search;
