// The arena after a granted collection.
//
// Of a sound arena and the list of its reachable blocks the arena that a collection leaves is sound again,
// exactly the listed blocks are taken in it, and each has its words as before.

#![tactic(auto)]
