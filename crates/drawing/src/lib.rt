// The public calls of the drawing store.
//
// No call asks anything of its caller: each judges the arena first (make apart), answers with the lowest refusal
// that applies, and on a refusal leaves every word. What each call gives
// and leaves, for all inputs and all refusals, is one promise of crate model (specs/Calls), and two
// outcomes that meet a promise are equal (proofs/Unique). From make on every call keeps the arena sound (proofs/Runs).
//
// The calls stand in make, allocate, ask, reference, plain and collect; place is for the C face. What they share stands in look
// (a judged arena), block (a taken block of it), fields (one of those read or written) and rooms; no other crate
// can call it.

#![tactic(auto)]

pub mod allocate;
pub mod ask;
mod block;
pub mod collect;
mod fields;
mod look;
pub mod make;
pub mod place;
pub mod plain;
pub mod reference;
mod rooms;
