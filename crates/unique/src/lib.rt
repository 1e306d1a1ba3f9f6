// Two answers that satisfy a public function's contract are equal; two readings of the same bytes are alike.
#![tactic(auto)]
