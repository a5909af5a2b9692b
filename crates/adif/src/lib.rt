// What an ADIF text says, and that the reading says the same: definitions and theorems, with no code.

#![tactic(auto)]
