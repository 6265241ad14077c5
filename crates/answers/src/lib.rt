// An answer as document 01 numbers it: status 0 for done, else the refusal's number; a refusal's value is 0.
#![tactic(auto)]

ghost use Rattle.std.specs.Prelude.{◌≡◌};
ghost use Rattle.meaning.specs.Answers.{number, status_of, value_of};

use types::{Answer, Refusal};

pub fn number_of(refusal: Refusal) -> u32
    ensures { result ≡ number refusal }
{
    refusal as u32
}

pub fn status_of(answer: Answer) -> u32
    ensures { result ≡ status_of answer }
{
    match answer {
        Ok(_) => 0,
        Err(r) => number_of(r),
    }
}

pub fn value_of(answer: Answer) -> u32
    ensures { result ≡ value_of answer }
{
    answer.unwrap_or(0)
}
