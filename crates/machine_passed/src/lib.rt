// What is known of a passed sheet: theorems only. There is no code here.
#![tactic(auto)]
