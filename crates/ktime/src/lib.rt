//! Times of high-resolution timers: the clock that only writes move, its readings, sums that stop at the end of time, and forwarding.
#![tactic(auto)]

pub use clock::Clock;
pub use clock_id::ClockId;
pub use forwarding::{Forwarded, forward, forwards_at_some_times, passed_counts_instants};
pub use mode::Mode;
pub use reading::Reading;
pub use times::{LAST_TIME, effective, sat_add};
pub use timespec::{BadTime, TimeSpec};
pub use write::{ClockFault, Write};

mod clock;
mod clock_id;
mod forwarding;
mod mode;
mod reading;
mod times;
mod timespec;
mod write;
