// The lines of a bench replay: which key stands on which line, and what a line says.
#![tactic(auto)]

ghost use Rattle.std.specs.Prelude.{◌≡◌};
ghost use Rattle.replay_keys.specs.Keys.{rank, after, number_at, one_of, field_of};

use text::read::number;

#[derive(Clone, Copy)]
pub enum Key {
    Lines,
    Espi,
    Eppi,
    Mbis,
    Op,
    Frame,
    Sec,
    Width,
    Offset,
    Value,
}

impl Key {
    // A key's place: four of the shape, six of each step.
    pub fn rank(self) -> usize
        ensures { result ≡ rank self }
    {
        self as usize
    }

    // The key of the next line. By match: after value= comes op=, which is not the next variant.
    pub fn next(self) -> Key
        ensures { result ≡ after self }
    {
        match self {
            Key::Lines => Key::Espi,
            Key::Espi => Key::Eppi,
            Key::Eppi => Key::Mbis,
            Key::Mbis => Key::Op,
            Key::Op => Key::Frame,
            Key::Frame => Key::Sec,
            Key::Sec => Key::Width,
            Key::Width => Key::Offset,
            Key::Offset => Key::Value,
            Key::Value => Key::Op,
        }
    }

    // What a line, without its end, says for the key whose turn it is.
    #[tactic(auto, unfolding(crate::specs::Keys::field_of))]
    pub fn field(self, line: &[u8]) -> Option<u32>
        ensures { result ≡ field_of self line.now }
    {
        match self {
            Key::Lines => number_at(line, b"lines=", 31),
            Key::Espi => number_at(line, b"espi=", 32),
            Key::Eppi => number_at(line, b"eppi=", 2),
            Key::Mbis => number_at(line, b"mbis=", 1),
            Key::Op => one_of(line, b"op=read", b"op=write"),
            Key::Frame => one_of(line, b"frame=dist", b"frame=redist"),
            Key::Sec => one_of(line, b"sec=s", b"sec=ns"),
            Key::Width => number_at(line, b"width=", u32::MAX),
            Key::Offset => number_at(line, b"offset=", u32::MAX),
            Key::Value => number_at(line, b"value=", u32::MAX),
        }
    }
}

#[tactic(auto, using(text::proofs::Texts::begins_stripped), unfolding(crate::specs::Keys::number_at, text::specs::Number::limited))]
fn number_at(line: &[u8], key: &[u8], most: u32) -> Option<u32>
    ensures { result ≡ number_at most key.now line.now }
{
    let digits = line.strip_prefix(key)?;
    number(digits).filter(|&n| n <= most)
}

#[tactic(auto, using(text::proofs::Texts::same_compared), unfolding(crate::specs::Keys::one_of))]
fn one_of(line: &[u8], first: &[u8], second: &[u8]) -> Option<u32>
    ensures { result ≡ one_of first.now second.now line.now }
{
    if line == first {
        Some(0)
    } else if line == second {
        Some(1)
    } else {
        None
    }
}
