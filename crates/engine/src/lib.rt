// What a step does to a bank, and what it is answered. A bank is the records of one frame, which are lent, and its presence words, which
// are only read. The lengths of the records stay a clause of each function: a read takes the records of either table, and a write has them
// lent to be written, so that they are not in `Bank`.
#![tactic(auto)]

pub mod dispatch;
pub mod event;
pub mod message;
pub mod reset;
pub mod typer;
pub mod word;
