// Laws of the model's own definitions, for every crate that proves something of them: no functions.

#![tactic(auto)]
