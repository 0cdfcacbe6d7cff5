//! What a line tells of its timer.
ghost use Rattle.std.specs.Prelude.{◌≡◌};
ghost use Rattle.trace_check.specs.Knowledge.{claim_of, known_cancelled, known_entered, known_exited, known_outer, known_set_up, known_started};
ghost use Rattle.trace_check.specs.Traced.{context_at};

use crate::known::{ArmedKnown, FunctionKnown, KnownProcessor, KnownTimer, OrderedExpiry};
use ktime::ClockId;
use seq_timer::Context;
use trace_text::Site;

/// The context that a line tells: by its flags, or else by what lines before it have told of its timer.
pub fn context_at(flags: Option<Context>, told: Option<Context>) -> Option<Context>
    ensures { result ≡ context_at flags told }
{
    flags.or(told)
}

impl KnownTimer {
    /// A timer that was set up.
    pub fn set_up(clock: Option<ClockId>, context: Option<Context>) -> KnownTimer
        ensures { result ≡ known_set_up clock context }
    {
        KnownTimer {
            armed: ArmedKnown::No,
            function: FunctionKnown::Rests,
            clock,
            told: context,
            context,
            home: None,
            order: None,
        }
    }

    /// The timer, started by event `n`.
    pub fn started(self, n: u64, soft: u64, expires: u64) -> KnownTimer
        ensures { result ≡ known_started n soft expires self }
    {
        let armed = ArmedKnown::Until { soft, expires };
        let home = match self.function {
            FunctionKnown::Runs { processor } => Some(processor),
            _ => None,
        };
        let order = match self.function {
            FunctionKnown::Rests if self.clock.is_some() => Some(n),
            _ => None,
        };
        KnownTimer {
            armed,
            home,
            order,
            ..self
        }
    }

    /// The timer, cancelled.
    pub fn cancelled(self) -> KnownTimer
        ensures { result ≡ known_cancelled self }
    {
        KnownTimer {
            armed: ArmedKnown::No,
            function: FunctionKnown::Rests,
            home: None,
            order: None,
            ..self
        }
    }

    /// The timer, expired. `inside`: its function began inside another one.
    pub fn entered(self, site: Site, inside: bool) -> KnownTimer
        ensures { result ≡ known_entered site inside self }
    {
        let context = if inside {
            Some(Context::Hard)
        } else {
            context_at(site.context, self.context)
        };
        KnownTimer {
            armed: ArmedKnown::No,
            function: FunctionKnown::Runs {
                processor: site.processor,
            },
            told: context_at(site.context, self.told),
            context,
            home: None,
            order: None,
            ..self
        }
    }

    /// The timer, inside whose function another one began.
    pub fn outer(self) -> KnownTimer
        ensures { result ≡ known_outer self }
    {
        KnownTimer {
            context: Some(Context::Soft),
            ..self
        }
    }

    /// The timer, its function returned. `there`: what was known of its processor.
    pub fn exited(self, site: Site, there: KnownProcessor) -> KnownTimer
        ensures { result ≡ known_exited site there self }
    {
        let home = match self.function {
            FunctionKnown::Untold => Some(site.processor),
            _ => self.home,
        };
        let left = there.left_for(self.function);
        KnownTimer {
            function: FunctionKnown::Rests,
            told: context_at(site.context, self.told),
            context: context_at(context_at(site.context, self.context), left),
            home,
            ..self
        }
    }

    /// The timer's expiry by event `n`, where it takes part in the order of its queue.
    pub fn claim(&self, n: u64, site: Site) -> Option<OrderedExpiry>
        ensures { result ≡ claim_of n site self.now }
    {
        let context = context_at(site.context, self.told)?;
        match (self.armed, self.clock, self.order) {
            (ArmedKnown::Until { expires, .. }, Some(clock), Some(order)) => Some(OrderedExpiry {
                processor: site.processor,
                context,
                clock,
                expires,
                order,
                at: n,
            }),
            _ => None,
        }
    }
}
