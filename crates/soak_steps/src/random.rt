// Numbers that look drawn and are the same on every run, for drawing steps and for mixing digests.

ghost use Rattle.std.specs.Prelude.{◌<◌};

// Marsaglia's xorshift of 64 bits: a bijection. 0 stays 0, and no other number becomes 0.
pub fn next(x: u64) -> u64 {
    let a = x ^ (x << 13);
    let b = a ^ (a >> 7);
    b ^ (b << 17)
}

// The low 32 bits.
pub fn word(x: u64) -> u32 {
    (x % 4294967296) as u32
}

// A number below `of`: the bits of x from bit `from` up, cut to size.
pub fn pick(x: u64, from: u32, of: u32) -> u32
    requires from_bound { from < 64 }
    requires of_nonzero { 0 < of }
    ensures { result < of }
{
    word(x >> from) % of
}

// Where the draws of table n begin: never 0, and another place for each of the first 2^32 numbers.
pub fn start(n: u64) -> u64 {
    let apart = (n % 4294967296) * 2654435769;
    next(next(next(next((apart ^ 0x9E3779B97F4A7C15) | 1))))
}
