//! What a line tells of its processor.
ghost use Rattle.std.specs.Prelude.{◌≡◌, ℕ};
ghost use Rattle.trace_check.specs.Knowledge.{begun, blocker, closed, closed_in, entered_there, exited_there, half_without, is_inside, is_known, is_taken, is_untold, left_for, loose_without, may_be_left, nothing_there, runner, vacated};
ghost use Rattle.trace_check.specs.Traced.{context_at};

use crate::known::{FunctionKnown, HalfKnown, KnownProcessor, KnownTimer};
use crate::learning::context_at;
use seq_timer::Context;
use trace_text::Site;

impl HalfKnown {
    fn is_taken(self) -> bool
        ensures { result ≡ is_taken self }
    {
        matches!(self, HalfKnown::Taken { .. })
    }

    fn is_untold(self) -> bool
        ensures { result ≡ is_untold self }
    {
        matches!(self, HalfKnown::Untold)
    }

    /// The timer whose function runs in the half.
    fn runner(self) -> Option<u64>
        ensures { result ≡ runner self }
    {
        match self {
            HalfKnown::Taken { timer } => Some(timer),
            _ => None,
        }
    }

    /// The half, with no function left from before the recording.
    fn closed(self) -> HalfKnown
        ensures { result ≡ closed self }
    {
        match self {
            HalfKnown::Untold => HalfKnown::Free,
            half => half,
        }
    }

    /// The half, where a timer's function has returned.
    fn without(self, timer: u64) -> HalfKnown
        ensures { result ≡ half_without timer self }
    {
        match self {
            HalfKnown::Taken { timer: runner } if runner == timer => HalfKnown::Free,
            half => half,
        }
    }
}

/// Whether a context is known to be this one.
fn is_known(context: Context, known: Option<Context>) -> bool
    ensures { result ≡ is_known context known }
{
    known == Some(context)
}

impl KnownProcessor {
    /// Nothing is known of a processor.
    pub fn nothing() -> KnownProcessor
        ensures { result ≡ nothing_there }
    {
        KnownProcessor {
            hard: HalfKnown::Untold,
            soft: HalfKnown::Untold,
            loose: None,
        }
    }

    /// Whether a function runs there inside which another one may begin.
    pub fn is_inside(self) -> bool
        ensures { result ≡ is_inside self }
    {
        self.soft.is_taken() || self.loose.is_some()
    }

    /// The timer inside whose function another one can't begin, whose context is known so. `outer`: that of the function that no line has told it of.
    pub fn blocker(self, context: Option<Context>, outer: Option<Context>) -> Option<u64>
        ensures { result ≡ blocker context outer self }
    {
        let around_soft = if is_known(Context::Soft, context) {
            self.soft.runner().or(self.loose)
        } else {
            None
        };
        let inside_hard = if is_known(Context::Hard, outer) {
            self.loose
        } else {
            None
        };
        self.hard.runner().or(around_soft.or(inside_hard))
    }

    /// Whether a function that ran when the recording began may return there, by a line that tells this context.
    pub fn may_be_left(self, line: Option<Context>) -> bool
        ensures { result ≡ may_be_left line self }
    {
        match line {
            None => self.hard.is_untold() || self.soft.is_untold(),
            Some(Context::Hard) => self.hard.is_untold(),
            Some(Context::Soft) => self.soft.is_untold(),
        }
    }

    /// The context that is left for a function that ran when the recording began, where only one is.
    pub fn left_for(self, function: FunctionKnown) -> Option<Context>
        ensures { result ≡ left_for function self }
    {
        match function {
            FunctionKnown::Untold if !self.hard.is_untold() => Some(Context::Soft),
            FunctionKnown::Untold if !self.soft.is_untold() => Some(Context::Hard),
            _ => None,
        }
    }

    /// The processor, where a function begins inside no other one.
    fn begun(self, timer: u64, line: Option<Context>) -> KnownProcessor
        ensures { result ≡ begun timer line self }
    {
        let taken = HalfKnown::Taken { timer };
        let free = HalfKnown::Free;
        let (hard, soft, loose) = match line {
            None => (free, self.soft, Some(timer)),
            Some(Context::Hard) => (taken, self.soft, self.loose),
            Some(Context::Soft) => (free, taken, self.loose),
        };
        KnownProcessor { hard, soft, loose }
    }

    /// The processor, where a function begins, by a line that tells this context.
    pub fn entered(self, timer: u64, line: Option<Context>) -> KnownProcessor
        ensures { result ≡ entered_there timer line self }
    {
        if self.is_inside() {
            KnownProcessor {
                hard: HalfKnown::Taken { timer },
                soft: self.soft.closed(),
                loose: self.loose,
            }
        } else {
            self.begun(timer, line)
        }
    }

    /// The processor, where a timer's function has returned.
    fn vacated(self, timer: u64) -> KnownProcessor
        ensures { result ≡ vacated timer self }
    {
        let loose = match self.loose {
            Some(runner) if runner == timer => None,
            other => other,
        };
        KnownProcessor {
            hard: self.hard.without(timer),
            soft: self.soft.without(timer),
            loose,
        }
    }

    /// The processor, with no function of this context left from before the recording.
    fn closed_in(self, context: Option<Context>) -> KnownProcessor
        ensures { result ≡ closed_in context self }
    {
        match context {
            None => self,
            Some(Context::Hard) => KnownProcessor {
                hard: self.hard.closed(),
                ..self
            },
            Some(Context::Soft) => KnownProcessor {
                soft: self.soft.closed(),
                ..self
            },
        }
    }

    /// The processor, where the function of a timer of which this is known has returned.
    pub fn exited(self, timer: u64, site: Site, known: &KnownTimer) -> KnownProcessor
        ensures { result ≡ exited_there timer site known.now self }
    {
        let line = context_at(site.context, known.told);
        let closing = context_at(line, self.left_for(known.function));
        self.vacated(timer).closed_in(closing)
    }
}
