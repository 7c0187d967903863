// What div and mod give, and their laws. There is no code here.
#![tactic(auto)]
