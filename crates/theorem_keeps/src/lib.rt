// What settling, sifting and the seal ask of the buffers, and that it holds on: definitions and theorems, no code.
#![tactic(auto)]
