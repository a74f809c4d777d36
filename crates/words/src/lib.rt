// Leaves on one word: its bits, its packed fields, the class table, and the handle formula.
//
// Each function is a few operations on numbers, and its contract is the definition of document 01 that
// it computes, as crate model states it. What follows of those definitions, that a packed word gives
// its fields back or that two blocks never overlap, stands in proofs/: FieldLaws, ClassLaws, HandleLaws.

#![tactic(auto)]

pub mod bits;
pub mod class;
pub mod fields;
pub mod handles;
