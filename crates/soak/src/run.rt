// What a table's steps came to.
use answers::{status_of, value_of};
use soak_steps::random::next;
use std::fmt;
use types::Answer;

// `x` is the stream after the last step, `number` the steps taken, `changed` how often the tables' digest was not the one before it;
// `answers` and `tables` are digests of all answers and of the tables' digests, and `last` is the tables' last digest.
#[derive(Clone, Copy)]
pub struct Run {
    pub x: u64,
    pub number: u64,
    done: u64,
    refused: u64,
    changed: u64,
    answers: u64,
    tables: u64,
    pub last: u64,
}

impl Run {
    pub fn begun(x: u64, last: u64) -> Run {
        Run {
            x,
            number: 0,
            done: 0,
            refused: 0,
            changed: 0,
            answers: 1,
            tables: 1,
            last,
        }
    }

    pub fn answered(&mut self, x: u64, answer: Answer) {
        self.x = x;
        self.number = self.number.wrapping_add(1);
        if answer.is_ok() {
            self.done = self.done.wrapping_add(1);
        } else {
            self.refused = self.refused.wrapping_add(1);
        }
        // By hand and not by `code_of`: that is abi_numbers's, the C interface, on which no program stands.
        let said = (u64::from(status_of(answer)) << 32) | u64::from(value_of(answer));
        self.answers = next(self.answers ^ said);
    }

    pub fn digested(&mut self, digest: u64) {
        if digest != self.last {
            self.changed = self.changed.wrapping_add(1);
        }
        self.tables = next(self.tables ^ digest);
        self.last = digest;
    }
}

impl fmt::Display for Run {
    fn fmt<W: fmt::Write>(&self, f: &mut fmt::Formatter<W>) -> fmt::Result {
        write!(
            f,
            " done={} refused={} changed={}",
            self.done, self.refused, self.changed
        )?;
        write!(
            f,
            " answers={:016x} tables={:016x}",
            self.answers, self.tables
        )
    }
}
