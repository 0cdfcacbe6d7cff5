//! The ways in which a start gives its time.
/// How a start gives the expiry.
#[derive(Clone, Copy, Debug, PartialEq, Eq)]
pub enum Mode {
    /// A time of the declared clock.
    Abs,
    /// So long after the reading that the call hands in.
    Rel,
    /// A time of the clock that the timer is kept on, as `hrtimer_restart` sets it.
    Keep,
}
