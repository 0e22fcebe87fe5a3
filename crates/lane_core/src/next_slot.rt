//! The slot that a deliverer has for each lane's next number.
ghost use Rattle.std.specs.Prelude.{◌≡◌, [], false, length, IfNone, IfSome};
ghost use Rattle.lane_core.specs.inner.NextSlots.{TakesSlot, is_here};
ghost use Rattle.lane_core.specs.NextSlots.{waiting_at};
ghost use Rattle.lane_core.specs.declared.next_slot.NextSlot.TheVariants.{Here};

use crate::delivery::Delivery;
use std::mem;

/// Whether the delivery of a lane's next number came, and the delivery while it waits.
#[derive(Debug, Drop)]
pub(crate) enum NextSlot {
    /// It has not come.
    Missing,
    /// It waits.
    Here(Delivery),
    /// It was taken out of turn, so the lane gets nothing more.
    Out,
}

impl NextSlot {
    /// Takes the delivery that waits and puts `left` into its place; otherwise nothing changes.
    pub(crate) fn take(&mut self, left: NextSlot) -> Option<Delivery>
        ensures some { IfSome result (λ x. (self.old ≡ Here x) × (self.new ≡ left)) }
        ensures none { IfNone result ((is_here self.old ≡ false) × (self.new ≡ self.old)) }
    {
        match mem::replace(self, left) {
            NextSlot::Here(delivery) => Some(delivery),
            other => {
                *self = other;
                None
            }
        }
    }
}

/// Takes the delivery of the first slot that has one, out of turn; otherwise nothing changes.
pub(crate) fn take_first(slots: &mut [NextSlot]) -> Option<Delivery>
    ensures some { IfSome result (TakesSlot slots.old slots.new) }
    ensures none { IfNone result ((waiting_at slots.old ≡ []) × (slots.new ≡ slots.old)) }
    ensures len { length slots.new ≡ length slots.old }
{
    for i in 0..slots.len() {
        if let Some(delivery) = slots[i].take(NextSlot::Out) {
            return Some(delivery);
        }
    }
    None
}
