// Examples 1 to 12 of the scope, as one table that the checker computes: see specs/Examples.antt.
#![tactic(auto)]
