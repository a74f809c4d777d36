// What a sound arena is, fact by fact: what holds of each class, segment and block, which segment has which rank, which blocks are taken, what
// every view of the arena is after a write, and that a granted write keeps the arena sound. Theorems only: no functions.

#![tactic(auto)]
