//! The run of a script: its rounds in turn, and the record of what all lanes left.
ghost use Rattle.std.specs.Prelude.{◌≡◌, [], IfOk, length, replicate};
ghost use Rattle.script_text.specs.Scripts.{IsInRange};
ghost use Rattle.lane_notes.specs.Rounds.{IsMain};
ghost use Rattle.lane_notes.specs.Runs.{MakesRun, ShowsAllSeen, ShowsLeft};
ghost use Rattle.run_history.specs.Fits.{Fits};
ghost use Rattle.lane_notes.specs.Worlds.{AreFirst, AreLast, ArePassesOf, IsWorldOf};
ghost use Rattle.lane_run.specs.Crews.{AllAwaitWorkOf, AllHaveEnded, AllMayGive, HasMain, IsCrewOf, IsGroundOf, RunsHeld};

use crate::crew::{Crew, Ground, LaneHandoff, LaneSeat, close_all, end_all, make_crew, serve_all};
use crate::gate::Gate;
use crate::reading::{look_at_all, look_at_queue, settle};
use crate::rounds::{Left, make_round};
use crate::world::World;
use lane_notes::{Notes, WorldPass, record_of};
use record_text::{Answer, ItemList, RunRecord};
use script_text::Script;
use std::alloc::{AllocError, Global};
use std::snapshot::Snapshot;
use std::sync::Wait;
use std::thread::{Threads, join_mut};

/// Runs a script in its world, and gives the record of the run with the world and its last passes. Where it wants memory it has closed both.
pub fn run<R: Threads + Wait + Sync, G: Gate>(
    rt: &R,
    alloc: Global,
    world: World,
    pass: WorldPass,
    script: &Script,
    gate: &G,
) -> Result<(RunRecord, World, WorldPass), AllocError>
    requires range { IsInRange script.now }
    requires world { IsWorldOf script.now world }
    requires pass { ArePassesOf world pass }
    requires first { AreFirst world pass }
    ensures world { IfOk result (λ r. r.1 ≡ world) }
    ensures pass { IfOk result (λ r. ArePassesOf world r.2) }
    ensures last { IfOk result (λ r. AreLast r.2) }
    ensures run { IfOk result (λ r. MakesRun world script.now pass r.0 r.2) }
    ensures fits { IfOk result (λ r. Fits script.now r.0) }
    ensures histories { IfOk result (λ r. ShowsAllSeen r.0 r.2) }
{
    let (main, made) = run_rounds(rt, alloc, &world, pass, script, gate);
    match made {
        Ok(shown) => Ok((shown, world, main)),
        Err(fault) => {
            world.close(main);
            Err(fault)
        }
    }
}

/// Makes the rounds of a script with a worker for each lane behind the first, and the record of what they leave. The first passes are given back.
fn run_rounds<R: Threads + Wait + Sync, G: Gate>(
    rt: &R,
    alloc: Global,
    world: &World,
    main: WorldPass,
    script: &Script,
    gate: &G,
) -> (WorldPass, Result<RunRecord, AllocError>)
    requires range { IsInRange script.now }
    requires world { IsWorldOf script.now world.now }
    requires main { IsMain world.now main [] }
    ensures main { IsMain world.now result.0 [] }
    ensures run { IfOk result.1 (λ r. MakesRun world.now script.now main r result.0) }
{
    let ground = Ground {
        world: Snapshot::of(world),
        script: Snapshot::of(script),
    };
    let crew = match make_crew(alloc, &ground, script.lanes.saturating_sub(1)) {
        Ok(crew) => crew,
        Err(fault) => return (main, Err(fault)),
    };
    let Crew {
        handoffs,
        mut givers,
        mut workers,
    } = crew;
    let mut held = Some(main);
    let made = run_beside(
        rt,
        alloc,
        world,
        &mut held,
        script,
        gate,
        &ground,
        &handoffs,
        &mut givers,
        &mut workers,
    );
    close_all(handoffs, givers);
    match held {
        Some(main) => (main, made),
        None => unreachable!(),
    }
}

/// Makes the rounds on this thread, and has the workers, where there are any, work beside it. They end once the record is made.
fn run_beside<R: Threads + Wait + Sync, G: Gate>(
    rt: &R,
    alloc: Global,
    world: &World,
    held: &mut Option<WorldPass>,
    script: &Script,
    gate: &G,
    ground: &Ground,
    handoffs: &Vec<LaneHandoff>,
    givers: &mut Vec<LaneSeat>,
    workers: &mut Vec<LaneSeat>,
) -> Result<RunRecord, AllocError>
    requires range { IsInRange script.now }
    requires world { IsWorldOf script.now world.now }
    requires main { HasMain world.now held.old }
    requires ground { IsGroundOf world.now script.now ground.now }
    requires crew { IsCrewOf ground.now handoffs.now.items givers.old.items workers.old.items }
    ensures run { RunsHeld world.now script.now held.old result held.new }
    ensures ended { AllHaveEnded handoffs.now.items givers.new.items }
{
    if workers.is_empty() {
        return make_and_end(
            rt, alloc, world, held, script, gate, ground, handoffs, givers,
        );
    }
    let (_, made) = join_mut(
        rt,
        &mut ||
            requires range { IsInRange script.now }
            requires world { IsWorldOf script.now world.now }
            requires workers { AllAwaitWorkOf world.now script.now handoffs.now.items workers.now.items }
        { serve_all(rt, alloc, world, script, gate, handoffs, workers) },
        &mut ||
            requires range { IsInRange script.now }
            requires world { IsWorldOf script.now world.now }
            requires main { HasMain world.now held.now }
            requires ground { IsGroundOf world.now script.now ground.now }
            requires givers { AllMayGive ground.now handoffs.now.items givers.now.items }
            requires many { length givers.now.items ≡ length handoffs.now.items }
        {
            make_and_end(
                rt, alloc, world, held, script, gate, ground, handoffs, givers,
            )
        },
    );
    made
}

/// Makes the rounds, and ends the workers' work.
fn make_and_end<R: Threads + Wait + Sync, G: Gate>(
    rt: &R,
    alloc: Global,
    world: &World,
    held: &mut Option<WorldPass>,
    script: &Script,
    gate: &G,
    ground: &Ground,
    handoffs: &Vec<LaneHandoff>,
    givers: &mut Vec<LaneSeat>,
) -> Result<RunRecord, AllocError>
    requires range { IsInRange script.now }
    requires world { IsWorldOf script.now world.now }
    requires main { HasMain world.now held.old }
    requires ground { IsGroundOf world.now script.now ground.now }
    requires givers { AllMayGive ground.now handoffs.now.items givers.old.items }
    requires many { length givers.old.items ≡ length handoffs.now.items }
    ensures run { RunsHeld world.now script.now held.old result held.new }
    ensures ended { AllHaveEnded handoffs.now.items givers.new.items }
{
    let Some(main) = held.take() else {
        unreachable!()
    };
    let (main, made) = make_rounds(
        rt, alloc, world, main, script, gate, ground, handoffs, givers,
    );
    end_all(handoffs, givers);
    match held.replace(main) {
        Some(_) => unreachable!(),
        None => made,
    }
}

/// Makes the rounds of a script, and the record of what they leave. The first passes are given back.
fn make_rounds<R: Threads + Wait + Sync, G: Gate>(
    rt: &R,
    alloc: Global,
    world: &World,
    main: WorldPass,
    script: &Script,
    gate: &G,
    ground: &Ground,
    handoffs: &Vec<LaneHandoff>,
    givers: &mut Vec<LaneSeat>,
) -> (WorldPass, Result<RunRecord, AllocError>)
    requires range { IsInRange script.now }
    requires world { IsWorldOf script.now world.now }
    requires main { IsMain world.now main [] }
    requires ground { IsGroundOf world.now script.now ground.now }
    requires givers { AllMayGive ground.now handoffs.now.items givers.old.items }
    ensures givers { AllMayGive ground.now handoffs.now.items givers.new.items }
    ensures givers_many { length givers.new.items ≡ length givers.old.items }
    ensures main { IsMain world.now result.0 [] }
    ensures run { IfOk result.1 (λ r. MakesRun world.now script.now main r result.0) }
{
    let answers = match no_answers(alloc, script.lanes) {
        Ok(answers) => answers,
        Err(fault) => return (main, Err(fault)),
    };
    let mut left = Left {
        notes: Notes::new(alloc),
        answers,
    };
    let mut main = main;
    let rounds = script.rounds.as_slice();
    for number in 0..rounds.len() {
        let (after, made) = make_round(
            rt,
            alloc,
            world,
            main,
            gate,
            ground,
            number,
            &rounds[number],
            handoffs,
            givers,
            &mut left,
        );
        main = after;
        if let Err(fault) = made {
            return (main, Err(fault));
        }
    }
    settle(rt, world, &mut main);
    look_at_queue(rt, world, &mut main);
    look_at_all(rt, world, &mut main);
    (main, record_left(alloc, script, left))
}

/// The record of a script's run that left this.
fn record_left(alloc: Global, script: &Script, left: Left) -> Result<RunRecord, AllocError>
    ensures { IfOk result (λ r. ShowsLeft script.now left r) }
{
    let Left { notes, answers } = left;
    record_of(
        alloc,
        script.version,
        notes,
        script.bases as usize,
        script.timers.as_slice().len(),
        answers,
    )
}

/// No answers yet, of so many lanes.
fn no_answers(alloc: Global, lanes: u32) -> Result<Vec<ItemList<Answer>>, AllocError>
    ensures { IfOk result (λ v. v.items ≡ replicate lanes []) }
{
    let mut answers = Vec::new(alloc);
    for _lane in 0..lanes {
        answers.push(ItemList::new(alloc))?;
    }
    Ok(answers)
}
