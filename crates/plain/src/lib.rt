// The plain rule and demand 3.
#![tactic(auto)]
