// A replay whose input comes in pieces of any size.
#![tactic(auto)]

pub mod piece;

use replay_state::State;

// What a piece has brought: the state after it, and how many of its bytes were taken. Where the output has no more room, the others
// have to be given again once the output is handed on.
#[derive(Clone, Copy)]
pub struct Fed {
    pub state: State,
    pub used: usize,
}
