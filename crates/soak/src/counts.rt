// How often each answer and each kind of step occurred: the answers by status, and the done steps by class, and of each by side and by
// read or write.
use answers::status_of;
use soak_steps::draws::Drawn;
use std::io;
use types::Answer;

#[derive(Drop)]
pub struct Counts {
    status: [u64; 10],
    done: [[u64; 4]; 37],
}

fn add_one(counts: &mut [u64], at: u32) {
    if let Some(count) = counts.get_mut(at as usize) {
        *count = count.wrapping_add(1);
    }
}

impl Counts {
    pub fn new() -> Counts {
        Counts {
            status: [0; 10],
            done: [[0; 4]; 37],
        }
    }

    pub fn add(&mut self, drawn: Drawn, answer: Answer) {
        add_one(&mut self.status, status_of(answer));
        if answer.is_err() {
            return;
        }
        if let Some(done) = self.done.get_mut(drawn.kind.class() as usize) {
            add_one(done, 2 * drawn.step.side() + drawn.step.way());
        }
    }

    pub fn print(&self, rt: &impl Print) -> io::Result<()> {
        for (status, steps) in self.status.iter().enumerate() {
            println!(rt; "status={status} steps={steps}")?;
        }
        for (class, [a, b, c, d]) in self.done.iter().enumerate() {
            println!(rt; "done class={class} s={a} {b} ns={c} {d}")?;
        }
        Ok(())
    }
}
