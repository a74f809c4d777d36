// Demand 3 lists the reachable blocks by the ways that lead there: fewest steps from a root first, then
// by root position, then by field position at each step. It says nothing of a queue. This crate is the
// theory that joins the two; nothing in it runs, and its theorems stand in proofs/:
//
//   Order     the order on ways is strict and total, and a step more keeps it
//   Least     the first way to a block
//   Listing   a drawing has one list; drawings that no way tells apart have lists that agree
//   Reach     what holds of all reachable blocks; the listed blocks are these
//   Listed    standing in a list of handles
//   Count     a list is no longer than the number of blocks that may stand in it
//   Put       putting handles on a list, 0 and known ones passed over
//   Frontier  the list so far, and one way more
//   Trace     breadth first, the list being the queue: roots, one head after the other, done
//   Run       several heads at once
//   Arena     the drawing that an arena holds
//   Examples  document 01's run, and a ring with a shared block
//
// The proof of the trace in a few lines. The list holds, each by its first way and in order, all that
// the ways earlier than some way u lead to. What u leads to is 0, or in the list, or new, and then u is
// its first way and later than all before it: so it goes on the end. The ways worth looking at are the
// roots in turn, then for each listed block its first way and each of its fields in turn; any other
// way that is earlier leads to a block whose first way was looked at.

#![tactic(auto)]
