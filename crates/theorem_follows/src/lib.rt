// Each step of the planner follows by the rules of the table: theorems, no code.
#![tactic(auto)]
