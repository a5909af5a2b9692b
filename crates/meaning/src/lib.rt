// What mapping and normalising mean: theorems about their definitions, and nothing that runs.

#![tactic(auto)]
