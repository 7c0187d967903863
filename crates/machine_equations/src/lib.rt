// Theorems only: the machine's recursion equations. There is no code here.
#![tactic(auto)]
