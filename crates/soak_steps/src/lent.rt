// The four tables that are lent: filled for a start, and digested. Each has one element more than it lends, for the steps that are lent
// one too many; it is digested too. Not a type of `limits`, whose tables have the right lengths.
use crate::random::next;
use crate::table::Table;

#[derive(Drop)]
pub struct Tables {
    pub(crate) dist: [u8; 2013],
    pub(crate) redist: [u8; 97],
    pub(crate) dist_presence: [u32; 64],
    pub(crate) redist_presence: [u32; 4],
}

// Fills a table from the stream, and gives the stream after it.
fn fill<T: Copy, F: Fn(u64) -> T>(table: &mut [T], from: u64, made: &F) -> u64
    requires { F.IsAlwaysCallable made.now }
{
    let mut x = from;
    for element in table.iter_mut() {
        x = next(x);
        *element = made(x);
    }
    x
}

// Adds numbers to a digest. Mixing is a bijection, so tables that differ in one word have different digests.
fn mix<T: Copy + Into<u64>>(from: u64, numbers: &[T]) -> u64 {
    let mut x = from;
    for number in numbers {
        x = next(x ^ (*number).into());
    }
    x
}

// Adds bytes to a digest: eight at once as a number, the lowest first, and the last ones, fewer than eight, one by one.
fn mix_bytes(from: u64, bytes: &[u8]) -> u64 {
    let (eights, last) = bytes.as_chunks::<8>();
    let mut x = from;
    for eight in eights {
        x = next(x ^ u64::from_le_bytes(*eight));
    }
    mix(x, last)
}

impl Tables {
    pub fn new() -> Tables {
        Tables {
            dist: [0; 2013],
            redist: [0; 97],
            dist_presence: [0; 64],
            redist_presence: [0; 4],
        }
    }

    // Fills the tables for a start. The stream goes on from one filling to the next, and what comes after the last is answered.
    pub fn fill(&mut self, table: Table) -> u64 {
        let byte = |x: u64| table.records.byte(x);
        let word = |x: u64| table.presence.word(x);
        let a = fill(&mut self.dist, table.x, &byte);
        let b = fill(&mut self.redist, a, &byte);
        let c = fill(&mut self.dist_presence, b, &word);
        fill(&mut self.redist_presence, c, &word)
    }

    // The digest of all four tables.
    pub fn digest(&self) -> u64 {
        let records = mix_bytes(mix_bytes(1, &self.dist), &self.redist);
        mix(mix(records, &self.dist_presence), &self.redist_presence)
    }
}
