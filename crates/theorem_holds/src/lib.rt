// What the seal lays out of a job within the limits serves settling and sifting, whatever follows: definitions and theorems only, in specs/.
#![tactic(auto)]
