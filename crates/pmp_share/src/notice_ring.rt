//! Rings that carry notices to a checker on a running thread.

ghost use Rattle.std.specs.Prelude.{◌≡◌, ◌+◌, ◌<◌, ◌≤◌, [], ◌∷◌, ◌++◌, length, IfOk, IfErr, IfSome, IsOk, OnOk, IsSome, None};
ghost use mathlib.Core.List.{IsPrefix};
ghost use Rattle.pmp_share.specs.declared.fault.ShareFault.TheVariants.{Full};
ghost use Rattle.pmp_share.specs.NoticeRings.{IsNewRing, ReceiverLooked, SenderLooked};

use crate::fault::ShareFault;
use crate::notice::Notice;
use crate::publisher::Publisher;
use rtrb::{Consumer, Producer, Protocol, PushError, RingBuffer};
use std::alloc::Global;
use std::marker::Model;
use std::snapshot::Snapshot;

/// Each notice is of the same unit as the first.
#[derive(Clone, Copy)]
pub struct OneUnit;

impl Protocol<Notice> for OneUnit {
    ghost use Rattle.pmp_share.specs.NoticeRings.{FollowsFirst};

    ghost allows = { FollowsFirst };
}

/// The sending end of a ring of notices. It never waits, and can be sent to any thread.
#[derive(Drop)]
pub struct NoticeSender {
    producer: Producer<Notice, Global, OneUnit>,
    first: Snapshot<Notice>,
}

impl Model for NoticeSender {
    ghost use Rattle.rtrb.specs.Ring.{sent, known_free};
    ghost use Rattle.pmp_share.specs.NoticeRings.{SenderToken, Began, after_first, ring_of};

    ghost Value = { SenderToken };

    ghost view = { λ sender. record {
      ring = ring_of sender.producer.end;
      unit = sender.first.value.unit;
      sent = after_first (sent sender.producer);
      room = known_free sender.producer;
    } };

    ghost invariant = { λ sender. Began (sent sender.producer) sender.first.value.unit };
}

/// The receiving end of a ring of notices. It never waits, and can be sent to any thread.
#[derive(Drop)]
pub struct NoticeReceiver {
    consumer: Consumer<Notice, Global, OneUnit>,
    first: Snapshot<Notice>,
}

impl Model for NoticeReceiver {
    ghost use Rattle.rtrb.specs.Ring.{received, known_items};
    ghost use Rattle.pmp_share.specs.NoticeRings.{ReceiverToken, Began, after_first, ring_of};

    ghost Value = { ReceiverToken };

    ghost view = { λ receiver. record {
      ring = ring_of receiver.consumer.end;
      unit = receiver.first.value.unit;
      received = after_first (received receiver.consumer);
      waiting = known_items receiver.consumer;
    } };

    ghost invariant = { λ receiver. Began (received receiver.consumer) receiver.first.value.unit };
}

impl Publisher {
    /// Creates a ring for up to `room` notices of its unit: one end for the publisher's thread, the other for a
    /// checker's thread. The notices in it take places, like all others. `NoPlace` if all are taken, and `Memory` if
    /// memory is refused.
    pub fn notice_ring(
        &mut self,
        alloc: Global,
        room: usize,
    ) -> Result<(NoticeSender, NoticeReceiver), ShareFault>
        requires { 1 ≤ room }
        ensures same { self.new ≡ self.old }
        ensures made { IfOk result (λ ends. IsNewRing self.old.unit room ends.0 ends.1) }
        ensures refused { IfErr result (λ fault. ¬ (fault ≡ Full)) }
    {
        let first = self.tell()?;
        let (sent, received) = (Snapshot::of(&first), Snapshot::of(&first));
        let (mut producer, mut consumer) = RingBuffer::with_protocol::<Global, OneUnit>(
            alloc, room,
        )?;
        producer.push_reserved(first);
        consumer.slots_beside(&mut producer);
        let _ = consumer.pop_known();
        producer.slots_beside(&mut consumer);
        let sender = NoticeSender {
            producer,
            first: sent,
        };
        let receiver = NoticeReceiver {
            consumer,
            first: received,
        };
        Ok((sender, receiver))
    }
}

impl NoticeSender {
    /// Sends a notice of the ring's unit after those already sent, or hands it back if the ring is full.
    pub fn send(&mut self, notice: Notice) -> Result<(), Notice>
        requires unit { notice.unit ≡ self.old.unit }
        ensures same { (self.new.ring ≡ self.old.ring) × (self.new.unit ≡ self.old.unit) }
        ensures sent { OnOk result (self.new.sent ≡ self.old.sent ++ notice ∷ []) }
        ensures room { self.old.room ≤ self.new.room + 1 }
        ensures succeeds { 0 < self.old.room → IsOk result }
        ensures full { IfErr result (λ back. (back ≡ notice) × (self.new.sent ≡ self.old.sent)) }
    {
        match self.producer.push(notice) {
            Ok(()) => Ok(()),
            Err(PushError::Full(back)) => Err(back),
        }
    }

    /// Whether the receiver was dropped. What is sent after that is lost.
    pub fn is_abandoned(&mut self) -> bool
        ensures { SenderLooked self.old self.new }
    {
        self.producer.is_abandoned()
    }
}

impl NoticeReceiver {
    /// Returns the next notice that was sent, if there is one. It is of the ring's unit.
    pub fn receive(&mut self) -> Option<Notice>
        ensures same { (self.new.ring ≡ self.old.ring) × (self.new.unit ≡ self.old.unit) }
        ensures received { IfSome result (λ notice. (notice.unit ≡ self.old.unit)
            × (self.new.received ≡ self.old.received ++ notice ∷ [])
            × IsPrefix self.old.waiting (notice ∷ self.new.waiting)) }
        ensures none { (result ≡ None) → (self.new.received ≡ self.old.received) × (self.new.waiting ≡ []) }
        ensures succeeds { 0 < length self.old.waiting → IsSome result }
    {
        self.consumer.pop().ok()
    }

    /// Returns how many notices are waiting. Each of them will be received.
    pub fn waiting(&mut self) -> usize
        ensures looked { ReceiverLooked self.old self.new }
        ensures value { result ≡ length self.new.waiting }
    {
        self.consumer.slots()
    }

    /// Returns the same on a thread that has both ends, as after a join: what was received and what waits is what was
    /// sent, each notice once and in order.
    pub fn waiting_beside(&mut self, sender: &mut NoticeSender) -> usize
        requires pair { sender.old.ring ≡ self.old.ring }
        ensures looked { ReceiverLooked self.old self.new × SenderLooked sender.old sender.new }
        ensures value { result ≡ length self.new.waiting }
        ensures in_order { self.new.received ++ self.new.waiting ≡ sender.new.sent }
    {
        self.consumer.slots_beside(&mut sender.producer)
    }

    /// Whether the sender was dropped. What it had sent can still be received.
    pub fn is_abandoned(&mut self) -> bool
        ensures { ReceiverLooked self.old self.new }
    {
        self.consumer.is_abandoned()
    }
}
