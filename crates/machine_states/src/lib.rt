// Theorems about the state's words. There is no code here.
#![tactic(auto)]
