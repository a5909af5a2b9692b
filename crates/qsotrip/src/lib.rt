// A contact mapped, written and read: theorems about those definitions, and nothing that runs.

#![tactic(auto)]
