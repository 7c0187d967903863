// A sheet that left its limit 0, rewritten with the limit that 0 meant until then: definitions and theorems only.
#![tactic(auto)]
