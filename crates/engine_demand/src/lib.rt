// Demand 3 of what playing a list returns: a definition and a theorem only.
#![tactic(auto)]
