// The claim about every list of events: theorems only. There is no code here.
#![tactic(auto)]
