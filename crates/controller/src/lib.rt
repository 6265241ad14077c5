// The monitor's answers. Each public method takes a request, has no condition on it or on what is lent, and promises `Answered`: its
// answer and the four tables after it are what the meaning's `stepped` says, refusals included.
// The frame is chosen here, once: what lies below takes the records and presence words of one bank.
#![tactic(auto)]

ghost use Rattle.std.specs.Prelude.{◌≡◌, true};
ghost use Rattle.meaning.specs.Interrupt.{frame_of};
ghost use Rattle.meaning.specs.Layout.{presence_of, well_formed};
ghost use Rattle.meaning.specs.Rule as step;

use engine::dispatch::serve;
use engine::event::happen;
use engine::reset::clear;
use register_decoder::{place_of, target_of};
use table_limits::fits;
use table_spans::Bank;
use types::{Access, Answer, Event, Frame, Refusal, Shape};

// The frame that keeps an INTID: SGIs, PPIs and extended PPIs are the Redistributor's.
#[tactic(auto, unfolding(meaning::specs::Interrupt::frame_of, meaning::specs::Interrupt::between))]
fn frame_of(m: u32) -> Frame
    ensures { result ≡ frame_of m }
{
    match m {
        0..=31 | 1056..=1119 => Frame::Redist,
        _ => Frame::Dist,
    }
}

// The four lent tables, two for writing and two for reading, and the shape. A bank keeps presence words while records are lent on, so
// the two have a lifetime each.
#[derive(Drop)]
pub struct Controller<'r, 'p> {
    pub dist: &'r mut [u8], // 2,012 record bytes of the Distributor
    pub redist: &'r mut [u8], // 96 record bytes of the Redistributor
    pub dist_presence: &'p [u32], // 63 presence words
    pub redist_presence: &'p [u32], // 3 presence words
    pub shape: Shape,
}

impl<'p> Controller<'_, 'p> {
    ghost use Rattle.table_limits.specs.Sizes.{Sizes};
    ghost use Rattle.controller.specs.Answered.{tables_of, Answered};

    // Whether refusal 1 does not apply. A bool and no Result, as the meaning's `well_formed` is one: `sizes` is of its true.
    fn fits(&self) -> bool
        ensures judged { result ≡ well_formed self.now.shape (tables_of self.now) }
        ensures sizes { result ≡ true → Sizes self.now.shape (tables_of self.now) }
    {
        fits(
            self.shape,
            self.dist,
            self.redist,
            self.dist_presence,
            self.redist_presence,
        )
    }

    // The bank of a frame.
    fn bank_of(&self, frame: Frame) -> Bank<'p>
        requires { Sizes self.now.shape (tables_of self.now) }
        ensures frame { result.frame ≡ frame }
        ensures shape { result.shape ≡ self.now.shape }
        ensures presence { result.presence.now ≡ presence_of frame (tables_of self.now) }
    {
        let presence = match frame {
            Frame::Dist => self.dist_presence,
            Frame::Redist => self.redist_presence,
        };
        Bank {
            frame,
            shape: self.shape,
            presence,
        }
    }

    // A read or a write at an offset of a frame.
    #[tactic(auto, using(crate::proofs::Outcomes::ill))]
    pub fn access(&mut self, request: Access) -> Answer
        ensures { Answered self.old (step.access request) result self.new }
    {
        if !self.fits() {
            return Err(Refusal::Shape);
        }
        let place = place_of(request)?;
        let target = target_of(place);
        let bank = self.bank_of(request.frame);
        serve(self.dist, self.redist, bank, request, target)
    }

    // An event on an INTID: a wire goes to a level, a side activates or deactivates. Always inlined, as is `happen`: as calls they handed
    // struct, bank and answer on by memory, and an exported event took 285 instructions in place of 157.
    #[tactic(auto, using(crate::proofs::Outcomes::ill))]
    #[inline(always)]
    pub fn event(&mut self, intid: u32, event: Event) -> Answer
        ensures { Answered self.old (step.happens event intid) result self.new }
    {
        if !self.fits() {
            return Err(Refusal::Shape);
        }
        let frame = frame_of(intid);
        let bank = self.bank_of(frame);
        // Two calls: one variable for either of two borrows gets no proof.
        match frame {
            Frame::Dist => happen(self.dist, bank, intid, event),
            Frame::Redist => happen(self.redist, bank, intid, event),
        }
    }

    // All record bytes become 0; presence stays.
    #[tactic(auto, using(crate::proofs::Outcomes::ill))]
    pub fn reset(&mut self) -> Answer
        ensures { Answered self.old step.reset result self.new }
    {
        if !self.fits() {
            return Err(Refusal::Shape);
        }
        clear(self.dist);
        clear(self.redist);
        Ok(0)
    }
}
