// Definitions and theorems: what an engine knows while a body runs, and what each form of node then
// comes to in words.
#![tactic(auto)]
