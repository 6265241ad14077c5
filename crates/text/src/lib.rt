// Text in and out, as bytes: decimal numbers, and lines put into a lent buffer.
#![tactic(auto)]

pub mod read;
pub mod write;
