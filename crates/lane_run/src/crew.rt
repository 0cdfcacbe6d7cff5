//! Workers that live through the rounds of a run: each makes the calls of the lanes that are handed to it, and hands them back.
ghost use Rattle.std.specs.Prelude.{ℕ, ◌≡◌, ◌<◌, ◌+◌, IfOk, OnOk, get_or, length};
ghost use Rattle.lane_run.specs.declared.crew.Ground.{Ground};
ghost use Rattle.handoff.specs.Seated.{AwaitsWork, HandoffOf, IsDismissed, IsWorking};
ghost use Rattle.script_text.specs.Scripts.{IsInRange};
ghost use Rattle.lane_notes.specs.Worlds.{IsWorldOf};
ghost use Rattle.lane_run.specs.Crews.{AllAwaitWorkOf, AllHaveEnded, AllMayGive, AwaitsWorkAt, CanRunAt, IsCrewOf, IsGroundOf, SeatOfLanes};

use crate::gate::Gate;
use crate::lane::run_lane;
use crate::world::World;
use handoff::{HandSeat, Handoff, Task};
use lane_notes::Lane;
use script_text::Script;
use std::alloc::{AllocError, Global};
use std::snapshot::Snapshot;
use std::sync::Wait;
use std::thread;
use std::thread::Threads;

/// A lane, and the round whose calls it makes, counted from 0.
pub(crate) struct LaneRound {
    pub(crate) lane: Lane,
    pub(crate) round: usize,
}

/// The world and the script of a run, as clauses see them. It has no bytes.
#[derive(Drop)]
pub(crate) struct Ground {
    pub(crate) world: Snapshot<World>,
    pub(crate) script: Snapshot<Script>,
}

impl Task<Ground> for LaneRound {
    ghost use Rattle.lane_run.specs.Crews.{CanRunAt, RunsAt};

    ghost can = { CanRunAt };

    ghost done = { RunsAt };
}

/// A handoff at which lanes are handed to a worker.
pub(crate) type LaneHandoff = Handoff<LaneRound, Ground>;

/// A seat of such a handoff.
pub(crate) type LaneSeat = HandSeat<LaneRound, Ground>;

/// The handoffs of a run, and for each the giver's seat and the worker's. It can't be dropped.
pub(crate) struct Crew {
    pub(crate) handoffs: Vec<LaneHandoff>,
    pub(crate) givers: Vec<LaneSeat>,
    pub(crate) workers: Vec<LaneSeat>,
}

/// So many handoffs.
pub(crate) fn make_crew(alloc: Global, ground: &Ground, count: u32) -> Result<Crew, AllocError>
    ensures crew { IfOk result (λ c. IsCrewOf ground.now c.handoffs.items c.givers.items c.workers.items) }
    ensures count { IfOk result (λ c. length c.handoffs.items ≡ count) }
{
    let mut crew = Crew {
        handoffs: Vec::new(alloc),
        givers: Vec::new(alloc),
        workers: Vec::new(alloc),
    };
    for _number in 0..count {
        if add_worker(alloc, ground, &mut crew).is_err() {
            let Crew {
                handoffs,
                mut givers,
                workers: _,
            } = crew;
            end_all(&handoffs, &mut givers);
            close_all(handoffs, givers);
            return Err(AllocError);
        }
    }
    Ok(crew)
}

/// One more handoff, with a seat for its giver and one for its worker.
fn add_worker(alloc: Global, ground: &Ground, crew: &mut Crew) -> Result<(), AllocError>
    requires crew { IsCrewOf ground.now crew.old.handoffs.items crew.old.givers.items crew.old.workers.items }
    ensures crew { IsCrewOf ground.now crew.new.handoffs.items crew.new.givers.items crew.new.workers.items }
    ensures one { OnOk result (length crew.new.handoffs.items ≡ length crew.old.handoffs.items + 1) }
{
    crew.handoffs.reserve(1)?;
    crew.givers.reserve(1)?;
    crew.workers.reserve(1)?;
    let (handoff, giver, worker) = Handoff::make(alloc, ground)?;
    crew.handoffs.push_reserved(handoff);
    crew.givers.push_reserved(giver);
    crew.workers.push_reserved(worker);
    Ok(())
}

/// Ends the workers' work.
pub(crate) fn end_all(handoffs: &Vec<LaneHandoff>, givers: &mut Vec<LaneSeat>)
    requires givers { (g : Ground) × AllMayGive g handoffs.now.items givers.old.items }
    requires many { length givers.old.items ≡ length handoffs.now.items }
    ensures ended { AllHaveEnded handoffs.now.items givers.new.items }
{
    for number in 0..givers.len() {
        handoffs[number].end(&mut givers[number]);
    }
}

/// Closes the handoffs.
pub(crate) fn close_all(mut handoffs: Vec<LaneHandoff>, mut givers: Vec<LaneSeat>)
    requires ended { AllHaveEnded handoffs.items givers.items }
{
    while let Some(handoff) = handoffs.pop() {
        match givers.pop() {
            Some(giver) => handoff.close(giver),
            None => unreachable!(),
        }
    }
    handoffs.destroy_empty();
}

/// Has each worker work until its giver ends.
pub(crate) fn serve_all<R: Threads + Wait + Sync, G: Gate>(
    rt: &R,
    alloc: Global,
    world: &World,
    script: &Script,
    gate: &G,
    handoffs: &Vec<LaneHandoff>,
    workers: &mut Vec<LaneSeat>,
)
    requires range { IsInRange script.now }
    requires world { IsWorldOf script.now world.now }
    requires workers { AllAwaitWorkOf world.now script.now handoffs.now.items workers.old.items }
    ensures as_many { length workers.new.items ≡ length workers.old.items }
    ensures ended { (k : ℕ) (p : HandoffOf Ground) (s : SeatOfLanes) → k < length workers.old.items → IsDismissed (get_or handoffs.now.items k p) (get_or workers.new.items k s) }
{
    let count = workers.len().max(1);
    thread::for_each_mut(
        rt,
        workers,
        count,
        &|number, worker: &mut LaneSeat|
            requires range { IsInRange script.now }
            requires world { IsWorldOf script.now world.now }
            requires handoff { number < length handoffs.now.items }
            requires worker { AwaitsWorkAt world.now script.now handoffs.now.items number worker.old }
        { serve_at(rt, alloc, world, script, gate, handoffs, number, worker) },
    );
}

/// One worker's part of it: it works at the handoff of its number.
fn serve_at<R: Wait, G: Gate>(
    rt: &R,
    alloc: Global,
    world: &World,
    script: &Script,
    gate: &G,
    handoffs: &Vec<LaneHandoff>,
    number: usize,
    worker: &mut LaneSeat,
)
    requires range { IsInRange script.now }
    requires world { IsWorldOf script.now world.now }
    requires handoff { number < length handoffs.now.items }
    requires worker { AwaitsWorkAt world.now script.now handoffs.now.items number worker.old }
    ensures ended { (p : HandoffOf Ground) → IsDismissed (get_or handoffs.now.items number p) worker.new }
{
    serve(rt, alloc, world, script, gate, &handoffs[number], worker);
}

/// Makes the calls of the lanes that are handed over at a handoff, until there are no more.
fn serve<R: Wait, G: Gate>(
    rt: &R,
    alloc: Global,
    world: &World,
    script: &Script,
    gate: &G,
    handoff: &LaneHandoff,
    worker: &mut LaneSeat,
)
    requires range { IsInRange script.now }
    requires world { IsWorldOf script.now world.now }
    requires ground { IsGroundOf world.now script.now handoff.now.key }
    requires worker { AwaitsWork handoff.now worker.old }
    ensures ended { IsDismissed handoff.now worker.new }
{
    handoff.come();
    for _ in rt.forever() {
        match handoff.next(rt, worker) {
            Some(given) => run_given(rt, alloc, world, script, gate, handoff, worker, given),
            None => return,
        }
    }
    unreachable!()
}

/// Makes a lane's calls of a round, and hands the lane back.
fn run_given<R: Wait, G: Gate>(
    rt: &R,
    alloc: Global,
    world: &World,
    script: &Script,
    gate: &G,
    handoff: &LaneHandoff,
    worker: &mut LaneSeat,
    given: LaneRound,
)
    requires range { IsInRange script.now }
    requires world { IsWorldOf script.now world.now }
    requires ground { IsGroundOf world.now script.now handoff.now.key }
    requires can { CanRunAt handoff.now.key given }
    requires worker { IsWorking handoff.now given worker.old }
    ensures worker { AwaitsWork handoff.now worker.new }
{
    let LaneRound { mut lane, round } = given;
    let calls = &script.rounds.as_slice()[round];
    run_lane(rt, alloc, world, gate, calls, &mut lane);
    handoff.give_back(worker, LaneRound { lane, round });
}
