// What is asked for: five numbers of the input, whatever stands between them.
ghost use Rattle.std.specs.Prelude.{◌≤◌, length, IfOk};

use std::io;
use std::io::Read;

#[derive(Clone, Copy)]
pub struct Plan {
    pub first: u64,
    pub tables: u64,
    pub steps: u64,
    every: u64,
    pub show: bool,
}

// A number with one digit more; numbers past 10^17 take no more digits, so that none leaves the u64. Wrapping, since that only digits come
// is a fact of the split below, which the check does not carry here.
fn more(number: u64, digit: u8) -> u64 {
    if number > 100_000_000_000_000_000 {
        return number;
    }
    number * 10 + u64::from(digit.wrapping_sub(b'0'))
}

fn number_of(digits: &[u8]) -> u64 {
    digits.iter().fold(0, |number, digit| more(number, *digit))
}

// Reads until the buffer is full or the input ends, and answers how many bytes came. A loop, since std reads to an input's end only onto
// the heap.
fn read_full(input: &mut impl Read, buffer: &mut [u8]) -> io::Result<usize>
    ensures { IfOk result (λ n. n ≤ length buffer.new) }
{
    let mut done: usize = 0;
    while done < buffer.len() {
        let n = input.read(&mut buffer[done..])?;
        if n == 0 {
            return Ok(done);
        }
        done += n;
    }
    Ok(done)
}

impl Plan {
    // Of a text's numbers; those that are not there are 0.
    fn of(text: &[u8]) -> Plan {
        let mut words = text
            .split(|byte| !byte.is_ascii_digit())
            .filter(|word| !word.is_empty());
        let mut number = || words.next().map_or(0, number_of);
        Plan {
            first: number(),
            tables: number(),
            steps: number(),
            every: number(),
            show: number() == 1,
        }
    }

    pub fn read(rt: &impl Input) -> io::Result<Plan> {
        let mut buffer = [0u8; 4096];
        let n = read_full(&mut rt.reader(), &mut buffer)?;
        Ok(Plan::of(&buffer[..n]))
    }

    // Whether the tables are digested after this step: every so many, and after the last.
    pub fn is_due(self, number: u64) -> bool {
        self.every < 2 || number % self.every == 0 || number == self.steps
    }
}
