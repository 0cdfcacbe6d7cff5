//! What an event does, as data: to its timer's queue, to its timer's function, where it sends the timer, and who makes it.
ghost use Rattle.std.specs.Prelude.{◌≡◌, Some, true};
ghost use Rattle.seq_timer.specs.declared.effect.QueueEffect.TheVariants as queues;
ghost use Rattle.seq_timer.specs.declared.effect.RunEffect.TheVariants as functions;
ghost use Rattle.seq_timer.specs.Effects.{no_effect};

use ktime::Reading;

/// What becomes of a timer in its queue.
#[derive(Clone, Copy, Debug, PartialEq, Eq)]
pub enum QueueEffect {
    /// It is there as before, or in none.
    Stays,
    /// It is taken off, where it is in one.
    Leaves,
    /// It is armed: put in anew, behind all that expire as early or earlier.
    Armed,
}

/// What becomes of a timer's function.
#[derive(Clone, Copy, Debug, PartialEq, Eq)]
pub enum RunEffect {
    /// It runs as before, or doesn't.
    Stays,
    /// It is to run, from this reading on.
    Begins { reading: Reading },
    /// It has returned.
    Ends,
}

/// What an event does.
#[derive(Clone, Copy, Debug, PartialEq, Eq)]
pub struct Effect {
    pub queue: QueueEffect,
    pub function: RunEffect,
    /// The base that the timer is sent to.
    pub sent: Option<u32>,
    /// Whether only who has claimed the timer makes it.
    pub by_claimer: bool,
}

impl Effect {
    /// Of the queue alone.
    #[inline]
    pub(crate) fn queue(queue: QueueEffect) -> Effect
        ensures { result ≡ record no_effect { queue = queue } }
    {
        Effect {
            queue,
            function: RunEffect::Stays,
            sent: None,
            by_claimer: false,
        }
    }

    /// The timer leaves its queue, and is sent to a base.
    #[inline]
    pub(crate) fn sends(base: u32) -> Effect
        ensures { result ≡ record no_effect { queue = queues.Leaves; sent = Some base } }
    {
        Effect {
            sent: Some(base),
            ..Effect::queue(QueueEffect::Leaves)
        }
    }

    /// The timer leaves its queue, and its function begins.
    #[inline]
    pub(crate) fn begins(reading: Reading) -> Effect
        ensures { result ≡ record no_effect { queue = queues.Leaves; function = functions.Begins reading } }
    {
        Effect {
            function: RunEffect::Begins { reading },
            ..Effect::queue(QueueEffect::Leaves)
        }
    }

    /// By who has claimed the timer.
    #[inline]
    pub(crate) fn by_claimer(queue: QueueEffect, function: RunEffect) -> Effect
        ensures { result ≡ record no_effect { queue = queue; function = function; by_claimer = true } }
    {
        Effect {
            function,
            by_claimer: true,
            ..Effect::queue(queue)
        }
    }
}
