// One step as a line of numbers, for those who look for the first difference (docs/SOAK.md has their order).
use answers::{status_of, value_of};
use soak_steps::asked::{Off, Step};
use soak_steps::draws::Drawn;
use std::fmt;
use types::Answer;

// A step, its answer, and the tables' last digest.
#[derive(Clone, Copy)]
pub struct Shown {
    pub number: u64,
    pub drawn: Drawn,
    pub answer: Answer,
    pub tables: u64,
}

impl fmt::Display for Shown {
    fn fmt<W: fmt::Write>(&self, f: &mut fmt::Formatter<W>) -> fmt::Result {
        let Drawn {
            kind,
            step,
            off,
            ..
        } = self.drawn;
        write!(
            f,
            "step {} {} {} {}",
            self.number,
            kind.class(),
            step.side(),
            step.way()
        )?;
        match step {
            Step::Access(access) => {
                write!(
                    f,
                    " {} {} {} {} 0",
                    access.frame as u32, access.width, access.offset, access.value
                )?;
            }
            Step::Event(intid, _) => write!(f, " 0 0 0 0 {intid}")?,
            Step::Reset => write!(f, " 0 0 0 0 0")?,
        }
        let off = off.map_or(0, Off::number);
        write!(
            f,
            " {off} {} {} {:016x}",
            status_of(self.answer),
            value_of(self.answer),
            self.tables
        )
    }
}
