// A run of sixteen stations, computed from the definitions; no code.

#![tactic(auto)]
