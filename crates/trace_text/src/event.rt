//! What a kernel's trace tells of its timers.
use ktime::ClockId;
use seq_timer::Context;

/// The processor that a line was told by, and the context that it was in, where the line's flags tell that.
#[derive(Clone, Copy, Debug, PartialEq, Eq)]
pub struct Site {
    pub processor: u32,
    pub context: Option<Context>,
}

/// What a line tells. A timer is named by its address; times are in nanoseconds of the timer's clock.
#[derive(Clone, Copy, Debug, PartialEq, Eq)]
pub enum KernelEvent {
    /// `hrtimer_setup`, in earlier kernels `hrtimer_init`: a timer begins. Its clock is that of its times (`effective`), and `None` where the
    /// model has no such clock; its context is told where the mode names one.
    SetUp {
        timer: u64,
        clock: Option<ClockId>,
        context: Option<Context>,
    },
    /// `hrtimer_start`: it is queued. Earlier kernels don't tell whether it was so before.
    Start {
        timer: u64,
        soft: u64,
        expires: u64,
        was_armed: Option<bool>,
    },
    /// `hrtimer_cancel`: it was queued, and is taken off.
    Cancel {
        timer: u64,
    },
    /// `hrtimer_expire_entry`: it has expired, and its function begins.
    Entry {
        timer: u64,
        site: Site,
        now: u64,
    },
    /// `hrtimer_expire_exit`: its function has returned.
    Exit {
        timer: u64,
        site: Site,
    },
    /// The recorder has lost lines here.
    Lost,
}
