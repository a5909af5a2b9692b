// Chains of entries in a table, and the walk down one of them: definitions and laws, with no code.

#![tactic(auto)]
