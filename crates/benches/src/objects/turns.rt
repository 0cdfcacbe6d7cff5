//! What a thread does in a turn with each of its objects.
ghost use Rattle.std.specs.Prelude.{◌≡◌, ◌<◌, ◌^◌};
ghost use Rattle.benches.specs.Stands.{IsBenchStand, KeepsStand};

use crate::objects::stand::{NOW, Stand};
use crate::random::Random;
use std::alloc::AllocError;
use std::sync::Wait;

/// A call on each object.
#[derive(Clone, Copy, Debug, PartialEq, Eq)]
enum Call {
    /// A settime to a time ahead.
    Ahead,
    /// A settime to a time that is past.
    Due,
    /// A settime to 0.
    Clear,
    /// The accept of a signal, or a read.
    Take,
    /// A look.
    Look,
}

/// A turn: all objects are armed and then ended in one of two ways, or they are looked at.
#[derive(Clone, Copy, Debug, PartialEq, Eq)]
pub enum Turn {
    /// They are cleared.
    Clear,
    /// Their timers expire, and they are accepted or read.
    Expire,
    Look,
}

/// Makes a call on an object.
fn one<R: Wait>(
    rt: &R,
    stand: &mut Stand,
    id: u32,
    call: Call,
    expiry: u64,
) -> Result<bool, AllocError>
    requires stand { IsBenchStand stand.old }
    requires within { id < stand.old.count }
    requires small { expiry < 2 ^ 20 }
    ensures keeps { KeepsStand stand.old stand.new }
{
    match call {
        Call::Ahead => stand.set(rt, id, NOW + expiry + 1),
        Call::Due => stand.set(rt, id, expiry + 1),
        Call::Clear => stand.set(rt, id, 0),
        Call::Take => stand.take(rt, id),
        Call::Look => Ok(stand.look(rt, id)),
    }
}

/// Makes a call on each object. It answers whether all answered as they should.
fn each<R: Wait>(rt: &R, stand: &mut Stand, call: Call) -> Result<bool, AllocError>
    requires stand { IsBenchStand stand.old }
    ensures keeps { KeepsStand stand.old stand.new }
{
    let mut random = Random::new();
    let mut good = true;
    for id in 0..stand.count {
        good &= one(rt, stand, id, call, random.expiry())?;
    }
    Ok(good)
}

fn one_turn<R: Wait>(rt: &R, stand: &mut Stand, turn: Turn) -> Result<bool, AllocError>
    requires stand { IsBenchStand stand.old }
    ensures keeps { KeepsStand stand.old stand.new }
{
    match turn {
        Turn::Clear => {
            let armed = each(rt, stand, Call::Ahead)?;
            let cleared = each(rt, stand, Call::Clear)?;
            Ok(armed & cleared)
        }
        Turn::Expire => {
            let armed = each(rt, stand, Call::Due)?;
            let ran = stand.expire(rt)?;
            let taken = each(rt, stand, Call::Take)?;
            Ok(armed & ran & taken)
        }
        Turn::Look => each(rt, stand, Call::Look),
    }
}

/// So many turns.
pub fn turns<R: Wait>(rt: &R, stand: &mut Stand, turn: Turn, times: u64) -> Result<bool, AllocError>
    requires stand { IsBenchStand stand.old }
    ensures keeps { KeepsStand stand.old stand.new }
{
    let mut good = true;
    for _ in 0..times {
        good &= one_turn(rt, stand, turn)?;
    }
    Ok(good)
}
