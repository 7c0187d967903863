// The machine on two sheets that agree in every record but the head's step limit: theorems only. There is no code here.
#![tactic(auto)]
