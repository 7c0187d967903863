// What holds of start, of every event and of every list of events on a passed sheet: theorems only. There is no code here.
#![tactic(auto)]
