//! The one reading of a call, and what is read at the end of a run.
ghost use Rattle.std.specs.Prelude.{◌≡◌, length, []};
ghost use Rattle.clock_cell.specs.Views.{seen_reading, writes};
ghost use Rattle.lane_notes.specs.Called.{LeavesLane, ReadsFirst, lane_of};
ghost use Rattle.lane_notes.specs.Rounds.{IsMain};
ghost use Rattle.lane_notes.specs.Runs.{LooksAtAll, LooksAtQueue, Settles};
ghost use Rattle.lane_notes.specs.Worlds.{ArePassesOf};

use crate::world::World;
use ktime::Reading;
use lane_notes::{Lane, WorldPass};
use std::sync::Wait;

/// Reads the clock, in its place among the entries of the timers.
pub(crate) fn read_clock<R: Wait>(rt: &R, world: &World, lane: &mut Lane) -> Reading
    requires pass { ArePassesOf world.now lane.old.pass }
    ensures leaves { LeavesLane world.now lane.old lane.new }
    ensures reads { ReadsFirst (lane_of lane.old) (lane_of lane.new) }
    ensures reading { result ≡ seen_reading lane.new.pass.clock.knows }
    ensures count { result.stamp ≡ length (writes lane.new.pass.clock.knows) }
{
    let pass = &mut lane.pass;
    ordered_clock::read(
        rt,
        &world.timers,
        &mut pass.timers,
        &world.clock,
        &mut pass.clock,
    )
}

/// Settles the clock at the end of a run: the timers' first pass is told of just the writes that the clock has.
pub(crate) fn settle<R: Wait>(rt: &R, world: &World, main: &mut WorldPass)
    requires main { IsMain world.now main.old [] }
    ensures main { IsMain world.now main.new [] }
    ensures settles { Settles main.old main.new }
{
    ordered_clock::settle(
        rt,
        &world.timers,
        &mut main.timers,
        &world.clock,
        &mut main.clock,
    );
}

/// Looks at the queue of signals at the end of a run: by then it has made all pushes and pops of which the timers' first pass was told.
pub(crate) fn look_at_queue<R: Wait>(rt: &R, world: &World, main: &mut WorldPass)
    requires main { IsMain world.now main.old [] }
    ensures main { IsMain world.now main.new [] }
    ensures looks { LooksAtQueue world.now main.old main.new }
{
    ordered_signals::look(
        rt,
        &world.timers,
        &mut main.timers,
        world.objects.signals(),
        &mut main.signals,
    );
}

/// Looks at each object at the end of a run: by then it has made all turns of which the timers' first pass was told.
pub(crate) fn look_at_all<R: Wait>(rt: &R, world: &World, main: &mut WorldPass)
    requires main { IsMain world.now main.old [] }
    ensures main { IsMain world.now main.new [] }
    ensures looks { LooksAtAll world.now main.old main.new }
{
    let many = world.objects.len() as u32;
    for id in 0..many {
        world
            .objects
            .look_at(rt, &world.timers, &mut main.timers, &mut main.objects, id);
    }
}
