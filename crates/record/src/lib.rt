// One interrupt's record: what it says of its interrupt, and what a read shows of it. A contract that asks whether the interrupt is an
// SGI holds of each interrupt that the record may be of (OfEach).
#![tactic(auto)]

ghost use Rattle.std.specs.Prelude.{◌≡◌};
ghost use Rattle.types.specs.declared.Shape.{Shape};
ghost use Rattle.types.specs.declared.Way.{Way};
ghost use Rattle.meaning.specs.Interrupt.{Interrupt};
ghost use Rattle.meaning.specs.Cell.{get, put, decode, encode, non_secure, edge_of, pending};
ghost use Rattle.meaning.specs.Rule.{sees, secure_kind, may_touch, reaches, state_of, guarded, shows, visible};
ghost use Rattle.record.specs.Known.{OfEach};

use std::marker::Model;
use types::{Bit, Guard, Kind, Side, Switch};

// The byte, whether the interrupt is implemented, and (soft) whether it is an SGI, which is all that the rules ask of its name.
#[derive(Clone, Copy)]
pub struct Record {
    byte: u8,
    implemented: bool,
    soft: bool,
}

impl Model for Record {
    ghost use Rattle.std.specs.Prelude.{ℕ};
    ghost use Rattle.std.proofs.Common.{ap};
    ghost use Rattle.meaning.specs.Cell.{decode, encode};
    ghost use Rattle.meaning.proofs.Bytes.{encode-decode};
    ghost use Rattle.record.specs.Known.{Known};

    ghost Value = { Known };

    ghost view = { λ r. record { cell = decode r.implemented r.byte; soft = r.soft } };

    ghost inverse = { λ k. record { byte = encode k.cell; implemented = k.cell.implemented; soft = k.soft } };

    ghost inverse_ok = { λ r h. unfold decode in ap (λ (n : ℕ). record r { byte = n }) (encode-decode r.implemented r.byte) };
}

impl Record {
    pub fn new(byte: u8, implemented: bool, soft: bool) -> Record
        ensures { result ≡ record { cell = decode implemented byte; soft = soft } }
    {
        Record {
            byte,
            implemented,
            soft,
        }
    }

    pub fn byte(self) -> u8
        ensures { result ≡ encode self.cell }
    {
        self.byte
    }

    #[tactic(auto, unfolding(meaning::specs::Cell::decode))]
    pub fn is_implemented(self) -> bool
        ensures { result ≡ self.cell.implemented }
    {
        self.implemented
    }

    pub fn is_soft(self) -> bool
        ensures { result ≡ self.soft }
    {
        self.soft
    }

    // Whether a bit of the record is 1.
    pub fn has(self, bit: Bit) -> bool
        ensures { result ≡ get bit self.cell }
    {
        record_bits::has(bit, self.byte)
    }

    // The record with one bit made 1 or 0.
    pub fn put(self, bit: Bit, on: bool) -> Record
        ensures { result ≡ record self { cell = put bit on self.cell } }
    {
        Record {
            byte: record_bits::put(bit, on, self.byte),
            ..self
        }
    }

    // SGIs are edge whatever the edge bit says.
    #[tactic(auto, unfolding(meaning::specs::Cell::edge_of, meaning::specs::Cell::get))]
    pub fn is_edge(self) -> bool
        ensures { OfEach self (λ i c. result ≡ edge_of i c) }
    {
        self.soft || self.has(Bit::Edge)
    }

    #[tactic(auto, unfolding(meaning::specs::Cell::pending, meaning::specs::Cell::get))]
    pub fn is_pending(self) -> bool
        ensures { (s : Shape) → OfEach self (λ i c. result ≡ pending s i c) }
    {
        if self.is_edge() {
            self.has(Bit::Latch)
        } else {
            self.has(Bit::Latch) || self.has(Bit::Wire) || self.has(Bit::MessageLevel)
        }
    }

    // Group 1, whatever the modifier.
    #[tactic(auto, unfolding(meaning::specs::Cell::non_secure, meaning::specs::Cell::get))]
    fn non_secure(self) -> bool
        ensures { result ≡ non_secure self.cell }
    {
        self.has(Bit::Group)
    }

    #[tactic(auto, unfolding(meaning::specs::Rule::sees))]
    pub fn seen_by(self, side: Side) -> bool
        ensures { result ≡ sees side self.cell }
    {
        match side {
            Side::Secure => true,
            Side::NonSecure => self.non_secure(),
        }
    }

    // Whether a side reads and writes the interrupt's digit of that kind. `may_send` of record_messages reads alike and stays apart: the
    // meaning has two definitions, one of a kind of digit and one of a message register.
    #[tactic(auto, unfolding(meaning::specs::Rule::may_touch))]
    pub fn may_be_touched(self, side: Side, kind: Kind) -> bool
        ensures { (w : Way) (i : Interrupt) → result ≡ may_touch side w kind i self.cell }
    {
        match side {
            Side::Secure => true,
            Side::NonSecure => !secure_kind(kind) && self.seen_by(Side::NonSecure),
        }
    }

    // The gate of a digit: the interrupt is implemented, and the side may touch it.
    #[tactic(auto, unfolding(meaning::specs::Rule::reaches))]
    pub fn reached_by(self, side: Side, kind: Kind) -> bool
        ensures { (s : Shape) (w : Way) (i : Interrupt) → result ≡ reaches s side w kind i self.cell }
    {
        self.is_implemented() && self.may_be_touched(side, kind)
    }

    #[tactic(auto, unfolding(meaning::specs::Cell::get))]
    fn state_of(self, switch: Switch) -> bool
        ensures { (s : Shape) → OfEach self (λ i c. result ≡ state_of s switch i c) }
    {
        match switch {
            Switch::Enable => self.has(Bit::Enabled),
            Switch::Pending => self.is_pending(),
            Switch::Active => self.has(Bit::Active),
        }
    }

    // The digit of its word that a kind of family shows.
    #[tactic(auto, unfolding(meaning::specs::Rule::shows))]
    pub fn shown(self, kind: Kind) -> u32
        ensures { (s : Shape) (side : Side) → OfEach self (λ i c. result ≡ shows s side kind i c) }
    {
        match kind {
            Kind::Switched(_, switch) => u32::from(self.state_of(switch)),
            Kind::Guarded(guard) => u32::from(self.has(guarded(guard))),
            Kind::Trigger => 2 * u32::from(self.is_edge()),
        }
    }

    // The same as a side sees it: 0 where the interrupt is missing, or the side may not touch it.
    #[tactic(auto, unfolding(meaning::specs::Rule::visible))]
    pub fn visible(self, side: Side, kind: Kind) -> u32
        ensures { (s : Shape) → OfEach self (λ i c. result ≡ visible s side kind i c) }
    {
        if self.reached_by(side, kind) {
            self.shown(kind)
        } else {
            0
        }
    }
}

fn secure_kind(kind: Kind) -> bool
    ensures { result ≡ secure_kind kind }
{
    matches!(kind, Kind::Guarded(_))
}

// No From: both enums are of `types`, where no rule stands.
pub fn guarded(guard: Guard) -> Bit
    ensures { result ≡ guarded guard }
{
    match guard {
        Guard::Group => Bit::Group,
        Guard::Modifier => Bit::Modifier,
    }
}
