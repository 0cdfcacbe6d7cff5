//! A look at the queue that sees what the timers are told of it.
ghost use Rattle.std.specs.Prelude.{◌≤◌};
ghost use Rattle.hr_timers.specs.Known.{IsPassOf, KeepsLocks};
ghost use Rattle.ordered_signals.specs.Places.{HasSignalRing, pops_seen, pops_told, pushes_seen, pushes_told};
ghost use Rattle.pass_names.specs.Passes.{Looks};
ghost use Rattle.pass_names.specs.SharedHistory.{LooksOn};
ghost use Rattle.signal_queue.specs.Views.{IsPassOfQueue, KnowsQueue};

use crate::RING;
use hr_timers::{Pass, Timers};
use signal_queue::{SignalPass, Signals};
use std::sync::Wait;

/// Looks at the queue until it has made all pushes and pops of which the timers' pass was told. In fact the first look sees them: who tells of one has made it.
pub fn look<R: Wait>(
    rt: &R,
    timers: &Timers,
    pass: &mut Pass,
    signals: &Signals,
    signal_pass: &mut SignalPass,
)
    requires pass { IsPassOf timers.now pass.old }
    requires ring { HasSignalRing timers.now.about.rings signals.now.room }
    requires signals { IsPassOfQueue signals.now signal_pass.old }
    ensures pass { IsPassOf timers.now pass.new }
    ensures looks { LooksOn pass.old.known pass.new.known }
    ensures locks { KeepsLocks pass.old pass.new }
    ensures signals { IsPassOfQueue signals.now signal_pass.new }
    ensures queue { Looks signal_pass.old.knows.pass signal_pass.new.knows.pass }
    ensures known { KnowsQueue signal_pass.new.knows }
    ensures pushes { pushes_told timers.now.about pass.old.known.seen ≤ pushes_seen signal_pass.new.knows }
    ensures pops { pops_told timers.now.about pass.old.known.seen ≤ pops_seen signal_pass.new.knows }
{
    let put = timers.put_count(pass, RING);
    let taken = timers.taken_count(pass, RING);
    see_pushes(rt, signals, signal_pass, put);
    see_pops(rt, signals, signal_pass, taken);
}

/// Looks by the end for pushes until the pass has seen at least so many.
fn see_pushes<R: Wait>(rt: &R, signals: &Signals, pass: &mut SignalPass, least: u64)
    requires pass { IsPassOfQueue signals.now pass.old }
    ensures pass { IsPassOfQueue signals.now pass.new }
    ensures looks { Looks pass.old.knows.pass pass.new.knows.pass }
    ensures least { least ≤ pushes_seen pass.new.knows }
{
    for _ in rt.forever() {
        let end = signals.lend_push(rt).look(pass);
        let count = end.count();
        end.give_back();
        if count >= least {
            return;
        }
    }
    unreachable!()
}

/// Looks by the end for pops until the pass has seen at least so many.
fn see_pops<R: Wait>(rt: &R, signals: &Signals, pass: &mut SignalPass, least: u64)
    requires pass { IsPassOfQueue signals.now pass.old }
    ensures pass { IsPassOfQueue signals.now pass.new }
    ensures looks { Looks pass.old.knows.pass pass.new.knows.pass }
    ensures known { KnowsQueue pass.new.knows }
    ensures least { least ≤ pops_seen pass.new.knows }
{
    for _ in rt.forever() {
        let end = signals.lend_pop(rt).look(pass);
        let count = end.count();
        end.give_back();
        if count >= least {
            return;
        }
    }
    unreachable!()
}
