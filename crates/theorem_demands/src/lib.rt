// The demands of the mission as statements over the definitions, a proof of each, and the cases P1 to P12: no code.
#![tactic(auto)]
