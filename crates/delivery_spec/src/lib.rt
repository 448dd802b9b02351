// By when every accepted edit is aired: theorems; there is no code.

#![tactic(auto)]
