// A whole list of events in words: definitions and laws, no code.
#![tactic(auto)]
