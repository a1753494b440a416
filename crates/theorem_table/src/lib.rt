// The plain rule table of document 01: definitions and theorems, no code.
#![tactic(auto)]
