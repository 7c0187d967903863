// How often nodes stand in bodies and how often they are used: theorems only. There is no code here.
#![tactic(auto)]
