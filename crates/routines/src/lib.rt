// Definitions and theorems alone: where the objects of a routine stand, and which routines are accepted.
#![tactic(auto)]
