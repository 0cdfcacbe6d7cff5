//! A round: its lanes get passes of their own, run beside each other, and are taken in again.
ghost use Rattle.std.specs.Prelude.{◌≡◌, ◌≤◌, ◌<◌, ◌+◌, ◌-◌, ℕ, [], ◌++◌, false, All, OnOk, get_or, length, map, option_to_list, vec_capacity, vec_len};
ghost use Rattle.std.specs.List.{AllByRecursion};
ghost use Rattle.lane_notes.specs.Notes.{no_notes};
ghost use Rattle.lane_notes.specs.declared.lane.Lane.{Lane};
ghost use Rattle.lane_notes.specs.Rounds.{BeginsRound, CanRun, HasSplit, IsLaneOf, IsMain, MakesRound, RunsLane, TakesInLanes, TakesInPass, as_index, calling_from, has_calls, with_lane, with_left};
ghost use Rattle.lane_notes.specs.Called.{CanCall};
ghost use Rattle.lane_notes.specs.Worlds.{AnswerFor, ArePassesOf};
ghost use Rattle.lane_run.specs.Crews.{AllMayGive, IsRoundOf};

use crate::crew::{Ground, LaneHandoff, LaneRound, LaneSeat};
use crate::gate::Gate;
use crate::lane::run_lane;
use crate::world::World;
use lane_notes::{Lane, Notes, WorldPass};
use record_text::{Answer, ItemList, Label};
use script_text::Round;
use std::alloc::{AllocError, Global};
use std::marker::Model;
use std::sync::Wait;
use std::thread;
use std::thread::Threads;

/// What all lanes have left so far: notes of what they did, and each lane's answers.
#[derive(Drop)]
pub struct Left {
    pub notes: Notes,
    pub answers: Vec<ItemList<Answer>>,
}

impl Model for Left {
    ghost use Rattle.lane_notes.specs.Rounds.{LeftOf};

    ghost Value = { LeftOf };

    ghost view = { λ l. record { notes = l.notes; answers = l.answers.items } };
}

/// Makes the calls of a round, each lane on a thread of its own where one can be had. The first lane makes its calls by the first passes, which are
/// given back.
pub(crate) fn make_round<R: Threads + Wait + Sync, G: Gate>(
    rt: &R,
    alloc: Global,
    world: &World,
    main: WorldPass,
    gate: &G,
    ground: &Ground,
    number: usize,
    round: &Round,
    handoffs: &Vec<LaneHandoff>,
    givers: &mut Vec<LaneSeat>,
    left: &mut Left,
) -> (WorldPass, Result<(), AllocError>)
    requires ground { ground.now.world.value ≡ world.now }
    requires here { IsRoundOf ground.now number round.now }
    requires givers { AllMayGive ground.now handoffs.now.items givers.old.items }
    requires main { IsMain world.now main [] }
    requires calls { AllByRecursion (λ c. CanCall world.now c.lane c.call) round.now.calls }
    requires few { (0 < length left.old.answers) × (length left.old.answers ≤ 64) }
    ensures givers { AllMayGive ground.now handoffs.now.items givers.new.items }
    ensures givers_many { length givers.new.items ≡ length givers.old.items }
    ensures main { IsMain world.now result.0 [] }
    ensures lanes { length left.new.answers ≡ length left.old.answers }
    ensures round { OnOk result.1 (MakesRound world.now round.now main left.old result.0 left.new) }
{
    let mut lanes = Vec::new(alloc);
    if lanes.reserve(left.answers.len()).is_err() {
        lanes.destroy_empty();
        return (main, Err(AllocError));
    }
    let mut main = main;
    split_lanes(alloc, world, &mut main, round, left, &mut lanes);
    let first = new_lane(alloc, label_of(0, left.answers[0].as_slice()), main);
    let first = share_lanes(
        rt, alloc, world, gate, ground, number, round, handoffs, givers, first, &mut lanes,
    );
    take_in_all(rt, world, first, lanes, left)
}

/// Those of the other lanes that have calls in a round, each with passes of its own.
fn split_lanes(
    alloc: Global,
    world: &World,
    main: &mut WorldPass,
    round: &Round,
    left: &Left,
    lanes: &mut Vec<Lane>,
)
    requires main { IsMain world.now main.old [] }
    requires few { (0 < length left.now.answers) × (length left.now.answers ≤ 64) }
    requires room { (lanes.old.items ≡ []) × (length left.now.answers ≤ vec_capacity lanes.old) }
    ensures main { IsMain world.now main.new lanes.new.items }
    ensures split { HasSplit main.old main.new }
    ensures lanes { All (λ l. IsLaneOf world.now l) lanes.new.items }
    ensures begins { All (λ l. BeginsRound main.old left.now l) lanes.new.items }
    ensures names { map (λ l. l.label.lane) lanes.new.items ≡ calling_from round.now 1 (length left.now.answers - 1) }
    ensures room { vec_len lanes.new < vec_capacity lanes.new }
{
    for number in 1..left.answers.len() {
        if has_calls(round, number as u32) {
            let label = label_of(number, left.answers[number].as_slice());
            lanes.push_reserved(new_lane(alloc, label, world.split(main)));
        }
    }
}

/// The label of the call behind those that a lane has answers of.
fn label_of(lane: usize, answers: &[Answer]) -> Label
    requires few { lane ≤ 64 }
    ensures { result ≡ record { lane = lane; call = as_index (length answers.now) } }
{
    Label {
        lane: lane as u32,
        call: u32::try_from(answers.len()).unwrap_or(u32::MAX),
    }
}

/// A lane with passes of its own, before its first call of a round.
fn new_lane(alloc: Global, label: Label, pass: WorldPass) -> Lane
    ensures fields { (result.label ≡ label) × (result.pass ≡ pass) × (result.wants_memory ≡ false) }
    ensures empty { (result.notes ≡ no_notes) × (result.answers.items ≡ []) }
{
    Lane {
        label,
        pass,
        notes: Notes::new(alloc),
        answers: Vec::new(alloc),
        wants_memory: false,
    }
}

/// Whether a lane has calls in a round.
fn has_calls(round: &Round, lane: u32) -> bool
    ensures { result ≡ has_calls round.now lane }
{
    round.calls.as_slice().iter().any(|line| line.lane == lane)
}

/// Runs the lanes, each by a worker while there is one for it and the others on threads of this round, and gives the first one back.
fn share_lanes<R: Threads + Wait + Sync, G: Gate>(
    rt: &R,
    alloc: Global,
    world: &World,
    gate: &G,
    ground: &Ground,
    number: usize,
    round: &Round,
    handoffs: &Vec<LaneHandoff>,
    givers: &mut Vec<LaneSeat>,
    first: Lane,
    lanes: &mut Vec<Lane>,
) -> Lane
    requires ground { ground.now.world.value ≡ world.now }
    requires here { IsRoundOf ground.now number round.now }
    requires givers { AllMayGive ground.now handoffs.now.items givers.old.items }
    requires calls { AllByRecursion (λ c. CanCall world.now c.lane c.call) round.now.calls }
    requires first { CanRun world.now first }
    requires lanes { All (λ l. CanRun world.now l) lanes.old.items }
    requires room { vec_len lanes.old < vec_capacity lanes.old }
    ensures givers { AllMayGive ground.now handoffs.now.items givers.new.items }
    ensures givers_many { length givers.new.items ≡ length givers.old.items }
    ensures givers_room { (vec_len givers.new ≡ vec_len givers.old) × (vec_capacity givers.new ≡ vec_capacity givers.old) }
    ensures room { vec_capacity lanes.new ≡ vec_capacity lanes.old }
    ensures first { RunsLane world.now round.now first result }
    ensures as_many { length lanes.new.items ≡ length lanes.old.items }
    ensures ran { (k : ℕ) (d : Lane) → k < length lanes.old.items → RunsLane world.now round.now (get_or lanes.old.items k d) (get_or lanes.new.items k d) }
{
    let Some(mut giver) = givers.pop() else {
        return run_lanes(rt, alloc, world, gate, round, first, lanes);
    };
    let handoff = &handoffs[givers.len()];
    let first = match pop_for(rt, handoff, lanes) {
        None => share_lanes(
            rt, alloc, world, gate, ground, number, round, handoffs, givers, first, lanes,
        ),
        Some(lane) => {
            handoff.give(
                &mut giver,
                LaneRound {
                    lane,
                    round: number,
                },
            );
            let first = share_lanes(
                rt, alloc, world, gate, ground, number, round, handoffs, givers, first, lanes,
            );
            let LaneRound { lane, round: _ } = handoff.take_back(rt, &mut giver);
            lanes.push_reserved(lane);
            first
        }
    };
    givers.push_reserved(giver);
    first
}

/// The last lane, where there is a worker for it.
fn pop_for<R: Wait>(rt: &R, handoff: &LaneHandoff, lanes: &mut Vec<Lane>) -> Option<Lane>
    ensures items { lanes.old.items ≡ lanes.new.items ++ option_to_list result }
    ensures len { vec_len lanes.new + length (option_to_list result) ≡ vec_len lanes.old }
    ensures capacity { vec_capacity lanes.new ≡ vec_capacity lanes.old }
{
    if !lanes.is_empty() && handoff.has_worker(rt) {
        lanes.pop()
    } else {
        None
    }
}

/// Runs the lanes, and gives the first one back. One lane alone runs on this thread.
fn run_lanes<R: Threads + Wait + Sync, G: Gate>(
    rt: &R,
    alloc: Global,
    world: &World,
    gate: &G,
    round: &Round,
    first: Lane,
    lanes: &mut Vec<Lane>,
) -> Lane
    requires calls { AllByRecursion (λ c. CanCall world.now c.lane c.call) round.now.calls }
    requires first { CanRun world.now first }
    requires lanes { All (λ l. CanRun world.now l) lanes.old.items }
    requires room { vec_len lanes.old < vec_capacity lanes.old }
    ensures room { vec_capacity lanes.new ≡ vec_capacity lanes.old }
    ensures first { RunsLane world.now round.now first result }
    ensures as_many { length lanes.new.items ≡ length lanes.old.items }
    ensures ran { (k : ℕ) (d : Lane) → k < length lanes.old.items → RunsLane world.now round.now (get_or lanes.old.items k d) (get_or lanes.new.items k d) }
{
    lanes.push_reserved(first);
    run_all(rt, alloc, world, gate, round, lanes);
    match lanes.pop() {
        Some(first) => first,
        None => unreachable!(),
    }
}

/// Runs these lanes.
fn run_all<R: Threads + Wait + Sync, G: Gate>(
    rt: &R,
    alloc: Global,
    world: &World,
    gate: &G,
    round: &Round,
    lanes: &mut Vec<Lane>,
)
    requires calls { AllByRecursion (λ c. CanCall world.now c.lane c.call) round.now.calls }
    requires lanes { All (λ l. CanRun world.now l) lanes.old.items }
    ensures room { vec_capacity lanes.new ≡ vec_capacity lanes.old }
    ensures as_many { length lanes.new.items ≡ length lanes.old.items }
    ensures ran { (k : ℕ) (d : Lane) → k < length lanes.old.items → RunsLane world.now round.now (get_or lanes.old.items k d) (get_or lanes.new.items k d) }
{
    let count = lanes.len().max(1);
    thread::for_each_mut(
        rt,
        lanes,
        count,
        &|_, lane: &mut Lane|
            requires lane { CanRun world.now lane.old }
            requires calls { AllByRecursion (λ c. CanCall world.now c.lane c.call) round.now.calls }
        { run_lane(rt, alloc, world, gate, round, lane) },
    );
}

/// Takes all lanes' passes into those of the first lane, with what they leave. It fails where one wants memory, or there is none for what they leave.
fn take_in_all<R: Wait>(
    rt: &R,
    world: &World,
    first: Lane,
    lanes: Vec<Lane>,
    left: &mut Left,
) -> (WorldPass, Result<(), AllocError>)
    requires main { IsMain world.now first.pass lanes.items }
    requires lanes { All (λ l. IsLaneOf world.now l) lanes.items }
    requires names { (first.label.lane < length left.old.answers) × All (λ l. l.label.lane < length left.old.answers) lanes.items }
    ensures main { IsMain world.now result.0 [] }
    ensures count { length left.new.answers ≡ length left.old.answers }
    ensures memory { OnOk result.1 ((first.wants_memory ≡ false) × All (λ l. l.wants_memory ≡ false) lanes.items) }
    ensures taken { OnOk result.1 (TakesInLanes first.pass (with_lane left.old first) lanes.items result.0 left.new) }
{
    let Lane {
        label,
        pass,
        notes,
        answers,
        wants_memory,
    } = first;
    let mut main = pass;
    let kept = left.keep(label.lane, notes, answers);
    let taken = take_in_lanes(rt, world, &mut main, lanes, left);
    if wants_memory || kept.is_err() || taken.is_err() {
        (main, Err(AllocError))
    } else {
        (main, Ok(()))
    }
}

/// Takes lanes' passes in, with what they leave. It fails where one wants memory, or there is none for what they leave.
fn take_in_lanes<R: Wait>(
    rt: &R,
    world: &World,
    main: &mut WorldPass,
    mut lanes: Vec<Lane>,
    left: &mut Left,
) -> Result<(), AllocError>
    requires main { IsMain world.now main.old lanes.items }
    requires lanes { All (λ l. IsLaneOf world.now l) lanes.items }
    requires names { All (λ l. l.label.lane < length left.old.answers) lanes.items }
    ensures main { IsMain world.now main.new [] }
    ensures count { length left.new.answers ≡ length left.old.answers }
    ensures memory { OnOk result (All (λ l. l.wants_memory ≡ false) lanes.items) }
    ensures taken { OnOk result (TakesInLanes main.old left.old lanes.items main.new left.new) }
{
    let mut wants_memory = false;
    while let Some(lane) = lanes.pop() {
        if take_in_lane(rt, world, main, lane, left).is_err() {
            wants_memory = true;
        }
    }
    lanes.destroy_empty();
    if wants_memory {
        Err(AllocError)
    } else {
        Ok(())
    }
}

/// Takes a lane's passes in, with what it leaves.
fn take_in_lane<R: Wait>(
    rt: &R,
    world: &World,
    main: &mut WorldPass,
    lane: Lane,
    left: &mut Left,
) -> Result<(), AllocError>
    requires main { ArePassesOf world.now main.old }
    requires lane { ArePassesOf world.now lane.pass }
    requires answers { AnswerFor main.old lane.pass }
    requires name { lane.label.lane < length left.old.answers }
    ensures main { ArePassesOf world.now main.new }
    ensures takes { TakesInPass main.old lane.pass main.new }
    ensures count { length left.new.answers ≡ length left.old.answers }
    ensures memory { OnOk result (lane.wants_memory ≡ false) }
    ensures left { OnOk result (left.new ≡ with_lane left.old lane) }
{
    let Lane {
        label,
        pass,
        notes,
        answers,
        wants_memory,
    } = lane;
    world.take_in(rt, main, pass);
    left.keep(label.lane, notes, answers)?;
    if wants_memory {
        Err(AllocError)
    } else {
        Ok(())
    }
}

impl Left {
    /// Adds what a lane leaves of a round.
    fn keep(&mut self, lane: u32, notes: Notes, answers: Vec<Answer>) -> Result<(), AllocError>
        requires within { lane < length self.old.answers }
        ensures count { length self.new.answers ≡ length self.old.answers }
        ensures ok { OnOk result (self.new ≡ with_left self.old lane notes answers.items) }
    {
        self.notes.append(notes)?;
        let all = &mut self.answers[lane as usize];
        add_all(all, answers)
    }
}

/// Adds answers behind those that are there.
fn add_all(all: &mut ItemList<Answer>, answers: Vec<Answer>) -> Result<(), AllocError>
    ensures { OnOk result (all.new ≡ all.old ++ answers.items) }
{
    for answer in answers {
        all.push(answer)?;
    }
    Ok(())
}
