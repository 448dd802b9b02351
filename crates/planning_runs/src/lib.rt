// The planning calls and the rounds of a group: theorems; there is no code.

#![tactic(auto)]
