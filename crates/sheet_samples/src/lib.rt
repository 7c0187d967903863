// What check gives to whole sheets, and how often their nodes are used: theorems only. There is no code here.
#![tactic(auto)]
