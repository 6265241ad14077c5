// A decoded access: what a read of its target shows, and what a write to it leaves. The lengths of the records (`Room`) stay a clause of
// each function: both tables are lent beside the bank, since `part` takes both, and a write keeps the other.
ghost use Rattle.std.specs.Prelude.{◌≡◌};
ghost use Rattle.meaning.specs.Registers.{written_value};
ghost use Rattle.engine.specs.Target.{Room, OfTarget, OfMessage, read_at, Written, Served};

use crate::message::send;
use crate::typer::typer_of;
use crate::word::{read_word, write_word};
use table_spans::Bank;
use types::{Access, Answer, Frame, Side, Target, Way};

// What a read shows. The bank is that of the target's frame.
#[tactic(auto, unfolding(crate::specs::Target::read_at))]
fn read<'a>(dist: &'a [u8], redist: &'a [u8], bank: Bank, side: Side, target: Target) -> u32
    requires { Room target bank dist.now redist.now }
    ensures { OfTarget target (λ at. result
        ≡ read_at bank.entry.shape at side target bank.entry.presence.now dist.now redist.now) }
{
    match target {
        Target::Digits(window) => read_word(dist, redist, bank, side, window),
        Target::Typer => typer_of(bank.shape),
        Target::Message(_) => 0,
    }
}

// What a write leaves.
#[tactic(auto, unfolding(crate::specs::Target::written_at))]
fn write(dist: &mut [u8], redist: &mut [u8], bank: Bank, side: Side, target: Target, value: u32)
    requires { Room target bank dist.old redist.old }
    ensures { OfMessage target (λ at i. Written bank.entry.shape side target value bank.entry.presence.now dist.old redist.old dist.new
        redist.new at i) }
{
    match target {
        // Two calls, since one variable for either of two borrows gets no proof, and no contract says of a returned one whose it is.
        Target::Digits(window) => match bank.frame {
            Frame::Dist => write_word(dist, bank, side, window, value),
            Frame::Redist => write_word(redist, bank, side, window, value),
        },
        Target::Typer => {}
        Target::Message(message) => send(dist, bank, side, message, value),
    }
}

// With width 2 the upper half of the value is ignored.
#[tactic(auto, unfolding(meaning::specs::Registers::written_value))]
fn value_of(request: Access) -> u32
    ensures { result ≡ written_value request }
{
    if request.width == 2 {
        request.value % 65536
    } else {
        request.value
    }
}

// An access whose target is known.
pub fn serve(
    dist: &mut [u8],
    redist: &mut [u8],
    bank: Bank,
    request: Access,
    target: Target,
) -> Answer
    requires { Room target bank dist.old redist.old }
    ensures { OfMessage target (λ at i. Served bank.entry.shape request target bank.entry.presence.now dist.old redist.old result dist.new
        redist.new at i) }
{
    match request.way {
        Way::Read => Ok(read(dist, redist, bank, request.side, target)),
        Way::Write => {
            let value = value_of(request);
            write(dist, redist, bank, request.side, target, value);
            Ok(0)
        }
    }
}
