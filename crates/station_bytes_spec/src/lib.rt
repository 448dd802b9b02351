// A station and a group as bytes, and what turns and rounds report as bytes. The definitions and
// their laws stand beside; there is no code.

#![tactic(auto)]
