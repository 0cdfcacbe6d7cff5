//! A log of a caller's own entries of objects.
ghost use Rattle.std.specs.Prelude.{◌≡◌, ◌<◌, ◌+◌, [], ◌∷◌, ◌++◌};

use hr_timers::ReceiptLog;
use timer_setting::{ObjectCall, ObjectReply};

/// An entry of an object, with its number among the object's; or, where the reply is that the object's history is full, a trigger that was
/// refused, with the number of entries there.
#[derive(Clone, Copy, Debug, PartialEq, Eq)]
pub struct ObjectReceipt {
    pub object: u32,
    pub number: u64,
    pub call: ObjectCall,
    pub reply: ObjectReply,
}

/// Receipts of objects' entries.
pub type ObjectLog = ReceiptLog<ObjectReceipt>;

/// Adds a receipt in the room that was made. It takes no memory.
pub(crate) fn note(
    log: &mut ObjectLog,
    object: u32,
    number: u64,
    call: ObjectCall,
    reply: ObjectReply,
)
    requires room { 0 < log.old.spare }
    ensures receipts { log.new.receipts ≡ log.old.receipts ++ record { object = object; number = number; call = call; reply = reply } ∷ [] }
    ensures spare { log.new.spare + 1 ≡ log.old.spare }
{
    log.push(ObjectReceipt {
        object,
        number,
        call,
        reply,
    });
}
