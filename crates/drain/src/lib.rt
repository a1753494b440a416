// Seal, mark, draining, settling and sifting as values, and the walks over them. No code.
#![tactic(auto)]
