// The number that a text writes.
ghost use Rattle.std.specs.Prelude.{◌≡◌};
ghost use Rattle.text.specs.Number.{digits_after, number_in};

// The number that a text of digits writes. None where a byte is no digit, or where the digits read so far write more than the largest
// u32: each further digit makes the number larger, so that the text is refused there and then. By hand: `parse::<u32>` reads a `&str`
// and takes a leading `+`.
#[tactic(auto, using(crate::proofs::Numbers::reading))]
fn digits(text: &[u8]) -> Option<u32>
    ensures { result ≡ digits_after 0 text.now }
{
    let mut n: u32 = 0;
    for &b in text {
        if !b.is_ascii_digit() {
            return None;
        }
        n = n.checked_mul(10)?.checked_add(u32::from(b - b'0'))?;
    }
    Some(n)
}

#[tactic(auto, unfolding(crate::specs::Number::number_in, crate::specs::Number::leading_zero))]
pub fn number(text: &[u8]) -> Option<u32>
    ensures { result ≡ number_in text.now }
{
    match text {
        [] | [b'0', _, ..] => None,
        _ => digits(text),
    }
}
