//! A sink that counts the receipts that it is given.
use hr_timers::ReceiptSink;
use seq_timer::{Event, Reply};

/// How many receipts it was given.
#[derive(Clone, Copy, Debug, PartialEq, Eq, Drop)]
pub struct Counted {
    pub made: u64,
}

impl ReceiptSink for Counted {
    ghost use Rattle.std.specs.Prelude.{◌-◌};
    ghost use Rattle.shared_timer_uses.specs.Counting.{with_receipt};

    ghost pushed = { with_receipt };

    ghost room = { λ s. 18446744073709551615 - s.made };

    fn note(&mut self, timer: u32, number: u64, event: Event, reply: Reply) {
        let _ = (timer, number, event, reply);
        self.made += 1;
    }
}
