// A step of a bench replay: what its lines ask for, and what is written of its answer.
#![tactic(auto)]

pub mod answer;
pub mod request;
