// What follows from the controller's one equation, as theorems about the very `stepped` that its contracts cite. No function.
#![tactic(auto)]
