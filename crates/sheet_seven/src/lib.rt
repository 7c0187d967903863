// Sheets none of whose charts has more than seven parameters: the definitions of shape, uses, static rules and check that changed with M-105, compared one by one with their text of before. Theorems only. There is no code here.
#![tactic(auto)]
