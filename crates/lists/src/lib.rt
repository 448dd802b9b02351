// Lists read and changed place by place: definitions and laws for the other crates, no code.

#![tactic(auto)]
