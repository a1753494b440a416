// A settling and a sifting end because nothing waits any more: theorems, no code.
#![tactic(auto)]
