//! Lanes on threads.
ghost use Rattle.std.specs.Prelude.{◌≡◌};
ghost use Rattle.hulayban.specs.Lanes.{HasHandle, RunsBoth, RunsHere, joined_end};
ghost use Rattle.hulayban.specs.Places.{IsHandleAt};
ghost use Rattle.hulayban.specs.Systems.{IsHandleOf, IsOnly, KeepsHandle};

use crate::handle::Handle;
use crate::lane::{Done, Lane};
use crate::place::Place;
use crate::session::Session;
use crate::system::System;
use std::marker::Brand;
use std::sync::Wait;
use std::thread::{Threads, join_mut};

impl System {
    /// Runs a lane by a handle.
    pub fn run<R: Wait, L: Lane>(&self, rt: &R, me: Handle, lane: &mut L) -> (Handle, Done)
        requires me { IsHandleOf self.now me }
        requires suits { L.suits self.now }
        ensures keeps { KeepsHandle self.now me result.0 }
        ensures did { L.did self.now lane.old lane.new me result.0 result.1 }
    {
        run_at::<R, Brand, L>(rt, self, me, lane)
    }

    /// Runs two lanes at once, each by a handle of its own. The handle has then seen all that either did.
    pub fn run_both<R: Threads + Wait + Sync, K: Lane + Send, L: Lane + Send>(
        &self,
        rt: &R,
        mut me: Handle,
        first: &mut K,
        second: &mut L,
    ) -> (Handle, Done)
        requires me { IsOnly self.now me }
        requires suits { K.suits self.now × L.suits self.now }
        ensures only { IsOnly self.now result.0 }
        ensures ran { RunsBoth self.now me result.0 (K.did self.now first.old first.new) (L.did self.now second.old second.new) result.1 }
    {
        let other = self.split(&mut me);
        let mut one = Some(me);
        let mut two = Some(other);
        let (done, also) = join_mut(
            rt,
            &mut || run_in(rt, self, &mut one, first),
            &mut || run_in(rt, self, &mut two, second),
        );
        match (one, two) {
            (Some(mut me), Some(other)) => {
                self.retire(rt, &mut me, other);
                (me, both(done, also))
            }
            _ => unreachable!(),
        }
    }
}

/// How two lanes end: with the first one's fault, or the second one's.
pub(crate) fn both(first: Done, second: Done) -> Done
    ensures { result ≡ joined_end first second }
{
    first?;
    second
}

/// Runs a lane at this place.
fn run_at<R: Wait, P: Place, L: Lane>(
    rt: &R,
    system: &System,
    me: Handle,
    lane: &mut L,
) -> (Handle, Done)
    requires system { system.now ≡ P.system }
    requires me { IsHandleAt P.system P.name me }
    requires suits { L.suits P.system }
    ensures at { IsHandleAt P.system P.name result.0 }
    ensures did { L.did P.system lane.old lane.new me result.0 result.1 }
{
    let mut session = Session::<P>::begin(system, me);
    let done = lane.run(rt, &mut session);
    (session.end(), done)
}

/// Runs a lane by the handle that is here, and puts it back.
pub(crate) fn run_in<R: Wait, L: Lane>(
    rt: &R,
    system: &System,
    slot: &mut Option<Handle>,
    lane: &mut L,
) -> Done
    requires me { HasHandle system.now slot.old }
    requires suits { L.suits system.now }
    ensures { RunsHere system.now (λ v w. L.did system.now lane.old lane.new v w result) slot.old slot.new }
{
    match slot.take() {
        None => unreachable!(),
        Some(me) => {
            let (me, done) = system.run(rt, me, lane);
            match slot.replace(me) {
                None => done,
                Some(_) => unreachable!(),
            }
        }
    }
}
