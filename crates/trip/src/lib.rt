// What is written is ADIF text and reads back as what was written: definitions and theorems, with no code.

#![tactic(auto)]
