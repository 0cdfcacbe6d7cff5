//! As many objects as there may be timers.
ghost use Rattle.std.specs.Prelude.{◌≡◌, ℕ, ◌<◌, ◌≤◌, [], length, IfOk};
ghost use Rattle.pass_names.specs.Names.{IsLast};
ghost use Rattle.timer_objects.specs.declared.object.Kind.TheVariants as kinds;
ghost use Rattle.timer_objects.specs.Known.{decl_at};
ghost use Rattle.object_uses.specs.Callers.{HasPasses};

use super::assert_equal;
use super::stand::NONE;
use crate::set_timer;
use counted_row::RowPass;
use hr_timers::{Log, Pass, Timers};
use ktime::{ClockId, Reading};
use seq_timer::{Declared, Terms};
use std::alloc::{AllocError, Global};
use std::test::Fail;
use timer_objects::{Decl, Kind, Object, ObjectLog, Objects};

/// The most timers that there may be.
const TIMERS: u32 = 65_536;

/// The greatest limit on the entries of a timer, and of an object.
const LIMIT: u64 = (1 << 48) - 16;

/// So many POSIX timers on one base, each over its timer, and the first passes.
fn posix_timers(
    alloc: Global,
    count: usize,
) -> Result<(Timers, Pass, Objects, RowPass<Object>), AllocError>
    requires few { count ≤ 65536 }
    ensures passes { IfOk result (λ r. HasPasses r.0 r.2 r.1 r.3) }
    ensures last { IfOk result (λ r. IsLast r.1.known.id × (r.1.known.claims ≡ []) × IsLast r.3.knows.pass.id) }
    ensures many { IfOk result (λ r. (length r.0.about.timers ≡ count) × (length r.2.decls ≡ count)) }
    ensures bases { IfOk result (λ r. r.0.about.bases ≡ 1) }
    ensures kinds { IfOk result (λ r. (i : ℕ) → i < count → (decl_at r.2 i).kind ≡ kinds.Posix) }
{
    let clock = ClockId::Monotonic;
    let decl = Decl {
        kind: Kind::Posix,
        clock,
        base: 0,
    };
    let declared = vec![in alloc; Declared::hard(clock); count]?;
    let decls = vec![in alloc; decl; count]?;
    let counters = count as u32 + 1;
    let (timers, pass) = Timers::make_counting(
        alloc,
        1,
        &declared,
        Terms::limited(LIMIT),
        counters,
    )?;
    let Ok((objects, objects_pass)) = Objects::make(alloc, &decls, LIMIT) else {
        timers.close(pass);
        return Err(AllocError);
    };
    Ok((timers, pass, objects, objects_pass))
}

#[test]
#[tactic(auto, using(crate::proofs::Rooms::room_on))]
fn the_last_object_is_set(rt: HostRuntime) -> Result<(), Fail> {
    let (mut log, mut calls) = (Log::make(rt.alloc()), ObjectLog::make(rt.alloc()));
    log.reserve(4)?;
    calls.reserve(1)?;
    let (timers, mut pass, objects, mut objects_pass) = posix_timers(rt.alloc(), TIMERS as usize)?;
    assert_equal(&rt, objects.kind(TIMERS - 1), Kind::Posix);
    let now = Reading::at(0);
    let told = set_timer(
        &rt,
        &timers,
        &mut pass,
        &objects,
        &mut objects_pass,
        &mut log,
        &mut calls,
        TIMERS - 1,
        1,
        500,
        0,
        now,
    );
    assert_equal(&rt, told, NONE);
    assert!(rt; timers.peek(&mut pass, TIMERS - 1).enqueued);
    objects.close(objects_pass);
    timers.close(pass);
    Ok(())
}
