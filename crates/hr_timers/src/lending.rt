//! What every pass can be asked for: the history that it has seen, and the pass of the bases that it is.
ghost use Rattle.std.specs.Prelude.{◌≡◌, ◌≤◌, ℕ, true};
ghost use Rattle.base_row.specs.Calls.{IsBasePassOf};
ghost use Rattle.base_row.specs.Rests.{Rests};
ghost use Rattle.hr_timers.specs.Known.{IsDeclaredHistory, IsPassOf, pass_of, timer_then};
ghost use Rattle.seq_timer.specs.Steps.{IsBounded};
ghost use Rattle.seq_timer.specs.Tables.{runs_on};

use crate::timers::Timers;
use crate::tokens::Pass;

impl Timers {
    /// What a pass has seen is a history of the timers as they were declared, so the laws of `seq_timer` hold of it. Of what they say: a timer's soft
    /// expiry is at most its hard one, and on a base one function of a context runs at most. It costs nothing.
    pub fn history(&self, pass: &Pass)
        requires pass { IsPassOf self.now pass.now }
        ensures history { IsDeclaredHistory self.now.about pass.now.known.seen }
        ensures bounded { (t : ℕ) → IsBounded (timer_then self.now.about pass.now.known.seen t) }
        ensures soft { (t : ℕ) → (timer_then self.now.about pass.now.known.seen t).soft ≤ (timer_then self.now.about pass.now.known.seen t).expires }
        ensures alone { (base t u : ℕ) → runs_on base (timer_then self.now.about pass.now.known.seen t) ≡ true
            → runs_on base (timer_then self.now.about pass.now.known.seen u) ≡ true
            → (timer_then self.now.about pass.now.known.seen t).declared.context ≡ (timer_then self.now.about pass.now.known.seen u).declared.context
            → t ≡ u }
    {
        self.row.fresh();
        let _pass = &pass.inner;
    }

    /// A pass as one of the bases, for the calls of `base_row()`: it holds no base and carries no timer, and knows the same.
    pub fn lend(&self, pass: Pass) -> base_row::Pass
        requires pass { IsPassOf self.now pass }
        ensures row { IsBasePassOf self.now result }
        ensures rests { Rests result.knows }
        ensures same { pass_of result ≡ pass }
    {
        let Pass { inner } = pass;
        inner
    }

    /// A pass of the bases as one of the timers again, once it holds no base and carries no timer.
    pub fn take_back(&self, inner: base_row::Pass) -> Pass
        requires row { IsBasePassOf self.now inner }
        requires rests { Rests inner.knows }
        ensures pass { IsPassOf self.now result }
        ensures same { result ≡ pass_of inner }
    {
        let pass = Pass { inner };
        self.check(&pass);
        pass
    }
}
