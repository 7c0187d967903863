// Sheets none of whose charts has more than seven parameters: the machine's definitions that changed with M-105, compared one by one with their text of before. Theorems only. There is no code here.
#![tactic(auto)]
