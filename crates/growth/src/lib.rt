// The arena after a granted allocation: every view of it, exactly which block is taken more, that it is sound, and how much room there is
// before and after. Theorems only: no functions.

#![tactic(auto)]
