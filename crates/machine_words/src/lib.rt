// Bytes and words: what compiled code is given. Theorems only. There is no code here.
#![tactic(auto)]
