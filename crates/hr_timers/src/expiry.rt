//! The expiry run of a base, and the cancel that waits.
ghost use Rattle.std.specs.Prelude.{◌≡◌, ◌<◌, ◌≤◌, ◌+◌, ◌*◌, ℕ, [], ◌∷◌, ◌++◌, length};
ghost use Rattle.seq_timer.specs.declared.context.Context.TheVariants as contexts;
ghost use Rattle.seq_timer.specs.declared.answer.CancelAnswer.TheVariants as cancels;
ghost use Rattle.hr_timers.specs.Known.{OwnsClaim, IsPassOf, timer_then};
ghost use Rattle.hr_timers.specs.Calls.{Cancels};
ghost use Rattle.hr_timers.specs.Handlers.{KeepsPass, CanServe};
ghost use Rattle.hr_timers.specs.Expiring.{Expires, Nexts, Ran, finish_receipt};

use crate::handler::{Handler, asks};
use crate::{Claim, ClaimAnswer, Log, Pass, Timers};
use ktime::Reading;
use pass_names::Retries;
use seq_timer::{CancelAnswer, Context};
use std::sync::Wait;

/// What an expiry run answers.
#[derive(Clone, Copy, Debug, PartialEq, Eq)]
pub enum ExpireAnswer {
    /// As many functions ran as the budget allows; more timers may be due.
    More {
        fired: u64,
    },
    /// No timer of the context is the next to expire: the base is stopped for each of its clocks.
    Done {
        fired: u64,
    },
    /// Another pass runs the function of this timer on the base.
    BaseBusy {
        fired: u64,
        timer: u32,
        generation: u64,
    },
}

/// What one turn of an expiry run came to.
#[derive(Clone, Copy)]
pub enum Next {
    Fired,
    NoneDue,
    BaseBusy { timer: u32, generation: u64 },
}

/// Runs the functions of a base's timers of the hard context (`hrtimer_run_queues`).
pub fn expire<R: Wait, H: Handler>(
    rt: &R,
    timers: &Timers,
    pass: &mut Pass,
    base: u32,
    reading: Reading,
    budget: u64,
    handler: &mut H,
    log: &mut Log,
) -> ExpireAnswer
    requires pass { IsPassOf timers.now pass.old }
    requires base { base < timers.now.about.bases }
    requires room { 2 * budget ≤ log.old.spare }
    requires ready { budget ≤ H.meaning.ready handler.old }
    requires suits { CanServe H.meaning timers.now.about handler.old }
    ensures pass { IsPassOf timers.now pass.new }
    ensures expires { Expires H.meaning timers.now.about contexts.Hard base reading budget pass.old.known handler.old log.old.receipts pass.new.known handler.new log.new.receipts result }
    ensures keeps { KeepsPass pass.old.known pass.new.known }
    ensures room { log.old.spare ≤ log.new.spare + 2 * budget }
    ensures ready { H.meaning.ready handler.old ≤ H.meaning.ready handler.new + budget }
    ensures suits { CanServe H.meaning timers.now.about handler.new }
{
    expire_in(
        rt,
        timers,
        pass,
        Context::Hard,
        base,
        reading,
        budget,
        handler,
        log,
    )
}

/// Runs the functions of a base's timers of the soft context (`hrtimer_run_softirq`).
pub fn expire_soft<R: Wait, H: Handler>(
    rt: &R,
    timers: &Timers,
    pass: &mut Pass,
    base: u32,
    reading: Reading,
    budget: u64,
    handler: &mut H,
    log: &mut Log,
) -> ExpireAnswer
    requires pass { IsPassOf timers.now pass.old }
    requires base { base < timers.now.about.bases }
    requires room { 2 * budget ≤ log.old.spare }
    requires ready { budget ≤ H.meaning.ready handler.old }
    requires suits { CanServe H.meaning timers.now.about handler.old }
    ensures pass { IsPassOf timers.now pass.new }
    ensures expires { Expires H.meaning timers.now.about contexts.Soft base reading budget pass.old.known handler.old log.old.receipts pass.new.known handler.new log.new.receipts result }
    ensures keeps { KeepsPass pass.old.known pass.new.known }
    ensures room { log.old.spare ≤ log.new.spare + 2 * budget }
    ensures ready { H.meaning.ready handler.old ≤ H.meaning.ready handler.new + budget }
    ensures suits { CanServe H.meaning timers.now.about handler.new }
{
    expire_in(
        rt,
        timers,
        pass,
        Context::Soft,
        base,
        reading,
        budget,
        handler,
        log,
    )
}

/// Claims the timers of a context of a base that are due at this reading, one after another, and runs their functions, at most `budget` of them
/// (`hrtimer_run_queues`). The log gets a receipt of each claim and of each finish.
#[tactic(auto, using(crate::proofs::ExpiryTurns::keeps_trans))]
pub fn expire_in<R: Wait, H: Handler>(
    rt: &R,
    timers: &Timers,
    pass: &mut Pass,
    context: Context,
    base: u32,
    reading: Reading,
    budget: u64,
    handler: &mut H,
    log: &mut Log,
) -> ExpireAnswer
    requires pass { IsPassOf timers.now pass.old }
    requires base { base < timers.now.about.bases }
    requires room { 2 * budget ≤ log.old.spare }
    requires ready { budget ≤ H.meaning.ready handler.old }
    requires suits { CanServe H.meaning timers.now.about handler.old }
    ensures pass { IsPassOf timers.now pass.new }
    ensures expires { Expires H.meaning timers.now.about context base reading budget pass.old.known handler.old log.old.receipts pass.new.known handler.new log.new.receipts result }
    ensures keeps { KeepsPass pass.old.known pass.new.known }
    ensures room { log.old.spare ≤ log.new.spare + 2 * budget }
    ensures ready { H.meaning.ready handler.old ≤ H.meaning.ready handler.new + budget }
    ensures suits { CanServe H.meaning timers.now.about handler.new }
{
    for fired in 0..budget {
        match turn(rt, timers, pass, context, base, reading, handler, log) {
            Next::Fired => {}
            Next::NoneDue => return ExpireAnswer::Done { fired },
            Next::BaseBusy { timer, generation } => {
                return ExpireAnswer::BaseBusy {
                    fired,
                    timer,
                    generation,
                };
            }
        }
    }
    ExpireAnswer::More { fired: budget }
}

/// One turn of an expiry run.
fn turn<R: Wait, H: Handler>(
    rt: &R,
    timers: &Timers,
    pass: &mut Pass,
    context: Context,
    base: u32,
    reading: Reading,
    handler: &mut H,
    log: &mut Log,
) -> Next
    requires pass { IsPassOf timers.now pass.old }
    requires base { base < timers.now.about.bases }
    requires room { 2 ≤ log.old.spare }
    requires ready { 0 < H.meaning.ready handler.old }
    requires suits { CanServe H.meaning timers.now.about handler.old }
    ensures pass { IsPassOf timers.now pass.new }
    ensures nexts { Nexts H.meaning timers.now.about context base reading pass.old.known handler.old log.old.receipts pass.new.known handler.new log.new.receipts result }
    ensures keeps { KeepsPass pass.old.known pass.new.known }
    ensures room { log.old.spare ≤ log.new.spare + 2 }
    ensures ready { H.meaning.ready handler.old ≤ H.meaning.ready handler.new + 1 }
    ensures suits { CanServe H.meaning timers.now.about handler.new }
{
    match timers.claim_in_logged(rt, pass, log, context, base, reading) {
        ClaimAnswer::NoneDue => Next::NoneDue,
        ClaimAnswer::BaseBusy { timer, generation } => Next::BaseBusy { timer, generation },
        ClaimAnswer::Claimed(claim) => {
            run(rt, timers, pass, claim, reading, handler, log);
            Next::Fired
        }
    }
}

/// Runs the function of a claim, and finishes the claim.
fn run<R: Wait, H: Handler>(
    rt: &R,
    timers: &Timers,
    pass: &mut Pass,
    claim: Claim,
    reading: Reading,
    handler: &mut H,
    log: &mut Log,
)
    requires pass { IsPassOf timers.now pass.old }
    requires claim { OwnsClaim timers.now.about pass.old.known claim }
    requires room { 0 < log.old.spare }
    requires ready { 0 < H.meaning.ready handler.old }
    requires suits { CanServe H.meaning timers.now.about handler.old }
    ensures pass { IsPassOf timers.now pass.new }
    ensures ran { (r : Ran H.meaning timers.now.about reading claim pass.old.known handler.old pass.new.known handler.new)
        × (log.new.receipts ≡ log.old.receipts ++ finish_receipt claim r.restart (timer_then timers.now.about r.finishes.at claim.timer) ∷ []) }
    ensures room { log.old.spare ≤ log.new.spare + 1 }
    ensures ready { H.meaning.ready handler.old ≤ H.meaning.ready handler.new + 1 }
    ensures suits { CanServe H.meaning timers.now.about handler.new }
{
    let restart = handler.fire(rt, timers, pass, &claim, reading);
    timers.finish_logged(rt, pass, log, claim, asks(restart));
}

/// Disarms a timer, once its function isn't running (`hrtimer_cancel`). It never answers Running.
pub fn cancel<R: Wait>(rt: &R, timers: &Timers, pass: &mut Pass, timer: u32) -> CancelAnswer
    requires pass { IsPassOf timers.now pass.old }
    requires timer { timer < length timers.now.about.timers }
    ensures pass { IsPassOf timers.now pass.new }
    ensures cancels { Cancels timers.now.about pass.old.known pass.new.known timer result }
    ensures ended { (g n : ℕ) → result ≡ cancels.Running g n → ⊥ }
{
    for _ in Retries::new(rt) {
        match timers.try_to_cancel(rt, pass, timer) {
            CancelAnswer::Running { .. } => {}
            answer => return answer,
        }
    }
    unreachable!()
}
