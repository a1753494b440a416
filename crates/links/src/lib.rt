// Prefix links as values: which rows begin which, and what holds of them. No code.
#![tactic(auto)]
