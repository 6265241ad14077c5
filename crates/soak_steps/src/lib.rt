// The steps of a long random run (docs/SOAK.md): the stream of numbers, the starting tables, what each step asks for, and the step put
// to the controller. Nothing is promised of what is drawn but that it stays inside its bounds.
#![tactic(auto)]

pub mod asked;
pub mod draws;
mod edges;
pub mod lent;
pub mod random;
pub mod table;
