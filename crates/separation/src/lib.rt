// Demand 3 over whole runs, as theorems about the very functions that the controller's contracts cite. No function.
#![tactic(auto)]
