// The checked examples of docs/SCOPE.md, proved together in one table: definitions and a theorem, with no code.

#![tactic(auto)]
