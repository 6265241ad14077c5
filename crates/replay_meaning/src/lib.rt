// The meaning of a bench replay, in specs/, and what its runs and its readers keep from line to line.
#![tactic(auto)]

ghost use Rattle.std.specs.Prelude.{◌≡◌, ◌<◌};
ghost use Rattle.replay_meaning.specs.Run.{line_number, counted, stopped, keeping};

use replay_keys::Key;

// The most steps that a replay has.
pub const MAX_STEPS: u32 = 1000000;

// How far a replay has come: the key of the next line, the value of each key by its rank, the steps answered, and whether a bad line
// has ended it. The words of op=, frame= and sec= are kept as 0 and 1: `feed` takes any values, 2 among them, and says what they ask.
#[derive(Clone, Copy)]
pub struct Progress {
    pub key: Key,
    pub values: [u32; 10],
    pub steps: u32,
    pub over: bool, // a field, and no second type for a replay that is over: `feed` takes any Progress
}

impl Progress {
    // The number of the line whose turn it is.
    #[tactic(auto, using(replay_keys::proofs::Fields::rank_small), unfolding(crate::specs::Run::line_number))]
    pub fn line_number(self) -> u64
        ensures { result ≡ line_number self }
    {
        self.key.rank() as u64 + 6 * u64::from(self.steps) + 1
    }

    // One step more is answered. The bound is asked here, and is no ghost field of Progress: `feed` takes any.
    #[tactic(auto, unfolding(crate::specs::Run::counted))]
    pub fn counted(self) -> Progress
        requires { self.steps < MAX_STEPS }
        ensures { result ≡ counted self }
    {
        Progress {
            steps: self.steps + 1,
            ..self
        }
    }

    // The replay is over: no line after this one is read.
    #[tactic(auto, unfolding(crate::specs::Run::stopped))]
    pub fn stopped(self) -> Progress
        ensures { result ≡ stopped self }
    {
        Progress { over: true, ..self }
    }

    // The line's value is kept under its key, and the next key's turn comes.
    #[tactic(auto, using(replay_keys::proofs::Fields::rank_small), unfolding(crate::specs::Run::keeping))]
    pub fn keeping(self, v: u32) -> Progress
        ensures { result ≡ keeping self v }
    {
        let mut values = self.values;
        values[self.key.rank()] = v;
        Progress {
            key: self.key.next(),
            values,
            ..self
        }
    }
}
