// Definitions and theorems alone: why a file is not read, in words of its bytes.
#![tactic(auto)]
