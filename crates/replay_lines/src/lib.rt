// What one line of a replay does: its value is kept for the step, or it completes the step and the controller answers, or it is bad.
#![tactic(auto)]

pub mod line;
