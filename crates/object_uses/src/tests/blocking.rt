//! Two readers at once, of two descriptors among objects of other kinds, beside a third thread that moves the clock and runs the functions that are due. Where
//! an expiry got lost, or a reader weren't woken, the test would not end.
ghost use Rattle.std.specs.Prelude.{◌≡◌, [], IfOk};
ghost use Rattle.pass_names.specs.Names.{first_pass_id};
ghost use Rattle.object_uses.specs.Callers.{HasPasses};
ghost use Rattle.object_uses.specs.Sides.{AreMixed, KeepsSide};

use super::assert_equal;
use super::side::{Side, Write};
use clock_cell::SharedClock;
use counted_row::RowPass;
use hr_timers::{Pass, Timers};
use ktime::ClockId;
use seq_timer::{Declared, Terms};
use std::alloc::{AllocError, Global};
use std::sync::Wait;
use std::sync::atomic::AtomicU32;
use std::test::Fail;
use std::thread::{Threads, join_mut};
use timer_objects::{BlockingRead, Decl, Kind, Object, Objects, Reader};

/// What a reader was told: how many expiries it has read, and its last answer.
type Told = (u64, BlockingRead);

/// A POSIX timer, a descriptor, a sleeper and another descriptor on one base, the first passes, and who waits for each descriptor.
fn mixed(
    alloc: Global,
    clock: ClockId,
) -> Result<(Timers, Pass, Objects, RowPass<Object>, Reader, Reader), AllocError>
    ensures mixed { IfOk result (λ r. AreMixed r.0 r.2) }
    ensures passes { IfOk result (λ r. HasPasses r.0 r.2 r.1 r.3) }
    ensures first { IfOk result (λ r. (r.1.known.id ≡ first_pass_id) × (r.1.known.claims ≡ []) × (r.3.knows.pass.id ≡ first_pass_id)) }
{
    let kinds = [Kind::Posix, Kind::Fd, Kind::Sleeper, Kind::Fd];
    let decls = kinds.map(|kind| Decl {
        kind,
        clock,
        base: 0,
    });
    let declared = [Declared::hard(clock); 4];
    let (timers, pass) = Timers::make_counting(alloc, 1, &declared, Terms::limited(1000), 5)?;
    let Ok((objects, objects_pass, readers)) = Objects::make_blocking(alloc, &decls, 1000) else {
        timers.close(pass);
        return Err(AllocError);
    };
    let Some((first, second)) = both(readers) else {
        timers.close(pass);
        objects.close(objects_pass);
        return Err(AllocError);
    };
    Ok((timers, pass, objects, objects_pass, first, second))
}

/// The readers of the two descriptors.
fn both(mut readers: Vec<Reader>) -> Option<(Reader, Reader)> {
    let second = readers.pop()?;
    let first = readers.pop()?;
    Some((first, second))
}

/// One thread reads of a descriptor, and another writes the clock so many times.
fn read_beside<R: Threads + Wait + Sync>(
    rt: &R,
    one: &mut Side<'_>,
    two: &mut Side<'_>,
    reader: &mut Reader,
    wanted: u64,
    clock: (Write, u64),
    left: &AtomicU32,
) -> Told
    ensures same { (one.new ≡ one.old) × (two.new ≡ two.old) }
{
    let (told, ()) = join_mut(
        rt,
        &mut || one.read_until(rt, reader, wanted, left),
        &mut || two.run_until(rt, clock, left),
    );
    told
}

/// The same with a side that is split off, and taken in again.
fn read_and_run<R: Threads + Wait + Sync>(
    rt: &R,
    me: &mut Side<'_>,
    reader: &mut Reader,
    wanted: u64,
    clock: (Write, u64),
    left: &AtomicU32,
) -> Told
    ensures keeps { KeepsSide me.old me.new }
{
    let mut other = me.split();
    let told = read_beside(rt, me, &mut other, reader, wanted, clock, left);
    me.retire(rt, other);
    told
}

/// One thread reads of each descriptor, and a third writes the clock so many times.
fn read_at_once<R: Threads + Wait + Sync>(
    rt: &R,
    one: &mut Side<'_>,
    two: &mut Side<'_>,
    first: &mut Reader,
    second: &mut Reader,
    wanted: u64,
    clock: (Write, u64),
) -> (Told, Told)
    ensures same { one.new ≡ one.old }
    ensures keeps { KeepsSide two.old two.new }
{
    let left = AtomicU32::new(2);
    join_mut(
        rt,
        &mut || one.read_until(rt, first, wanted, &left),
        &mut || read_and_run(rt, two, second, wanted, clock, &left),
    )
}

/// The same with a side that is split off, and taken in again.
fn read_both<R: Threads + Wait + Sync>(
    rt: &R,
    me: &mut Side<'_>,
    first: &mut Reader,
    second: &mut Reader,
    wanted: u64,
    clock: (Write, u64),
) -> (Told, Told)
    ensures keeps { KeepsSide me.old me.new }
{
    let mut other = me.split();
    let told = read_at_once(rt, me, &mut other, first, second, wanted, clock);
    me.retire(rt, other);
    told
}

/// Sets the POSIX timer and both descriptors to this time and to each tenth nanosecond, and reads of both while a third thread writes the clock so many times.
fn read_in_all<R: Threads + Wait + Sync>(
    rt: &R,
    alloc: Global,
    id: ClockId,
    (flags, ns): (u64, u64),
    wanted: u64,
    write: Write,
    times: u64,
) -> Result<(Told, Told), AllocError> {
    let (clock, clock_pass) = SharedClock::make(alloc)?;
    let made = mixed(alloc, id);
    let Ok((timers, pass, objects, objects_pass, mut first, mut second)) = made else {
        clock.close(clock_pass);
        return Err(AllocError);
    };
    let mut me = Side {
        timers: &timers,
        objects: &objects,
        clock: &clock,
        pass,
        objects_pass,
        clock_pass,
        alloc,
    };
    me.set_all(rt, flags, ns);
    let told = read_both(rt, &mut me, &mut first, &mut second, wanted, (write, times));
    let Side {
        timers: _,
        objects: _,
        clock: _,
        pass,
        objects_pass,
        clock_pass,
        alloc: _,
    } = me;
    timers.close(pass);
    objects.close(objects_pass);
    clock.close(clock_pass);
    Ok(told)
}

#[test]
fn no_wake_up_is_lost_beside_a_hundred_expiries(rt: HostRuntime) -> Result<(), Fail> {
    let ((one, _), (two, _)) = read_in_all(
        &rt,
        rt.alloc(),
        ClockId::Monotonic,
        (1, 10),
        100,
        Write::Advance(10),
        100,
    )?;
    assert_equal(&rt, (one, two), (100, 100));
    Ok(())
}

/// Nobody tells of the clock's writes: the bell of each expiry alone wakes the reader of its descriptor.
#[test]
fn an_expiry_alone_wakes_its_own_reader(rt: HostRuntime) -> Result<(), Fail> {
    let ((one, _), (two, _)) = read_in_all(
        &rt,
        rt.alloc(),
        ClockId::Monotonic,
        (1, 10),
        100,
        Write::Untold(10),
        100,
    )?;
    assert_equal(&rt, (one, two), (100, 100));
    Ok(())
}

#[test]
fn a_set_clock_wakes_each_reader(rt: HostRuntime) -> Result<(), Fail> {
    let told = read_in_all(
        &rt,
        rt.alloc(),
        ClockId::Realtime,
        (3, 1000),
        1,
        Write::Set(500),
        1,
    )?;
    let canceled = (0, BlockingRead::Canceled);
    assert_equal(&rt, told, (canceled, canceled));
    Ok(())
}
