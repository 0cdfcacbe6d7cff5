//! What a call on a seat tells beside its number.
ghost use Rattle.std.specs.Prelude.{◌≡◌};
ghost use Rattle.hulayban_c.specs.SharedTells.{as_shared};

use crate::crossing::Answer;

/// What a call on a seat tells beside its number. What a call says nothing of is 0.
#[repr(C)]
#[derive(Clone, Copy, Debug, PartialEq, Eq)]
pub struct SharedAnswer {
    pub timer: u32,
    pub base: u32,
    pub clock: u32,
    pub armed: u32,
    pub running: u32,
    pub moving: u32,
    pub moved: u32,
    pub first: u32,
    pub generation: u64,
    pub number: u64,
    pub soft: u64,
    pub expires: u64,
    pub count: u64,
    pub wait: u64,
}

/// An answer that says nothing.
pub const SAYS_NOTHING: SharedAnswer = SharedAnswer {
    timer: 0,
    base: 0,
    clock: 0,
    armed: 0,
    running: 0,
    moving: 0,
    moved: 0,
    first: 0,
    generation: 0,
    number: 0,
    soft: 0,
    expires: 0,
    count: 0,
    wait: 0,
};

/// What a call on one thread would tell.
pub fn as_shared(told: (i32, Answer)) -> (i32, SharedAnswer)
    ensures { result ≡ as_shared told }
{
    let (code, answer) = told;
    let shared = SharedAnswer {
        timer: answer.timer,
        base: answer.base,
        clock: answer.clock,
        armed: answer.armed,
        running: answer.running,
        moved: answer.moved,
        generation: answer.generation,
        number: answer.number,
        soft: answer.soft,
        expires: answer.expires,
        count: answer.count,
        wait: answer.wait,
        ..SAYS_NOTHING
    };
    (code, shared)
}
