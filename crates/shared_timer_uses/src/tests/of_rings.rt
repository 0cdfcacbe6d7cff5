//! Rings of `hr_timers`: each call on its happy path.
ghost use Rattle.std.specs.Prelude.{◌≡◌, IfOk, length, []};
ghost use Rattle.base_row.specs.Rings.{ring_room};
ghost use Rattle.hr_timers.specs.Known.{IsPassOf};
ghost use Rattle.pass_names.specs.Names.{IsLast};

use super::{HARD, assert_equal};
use hr_timers::{Pass, Timers};
use seq_timer::Terms;
use std::alloc::{AllocError, Global};
use std::test::Fail;

/// One timer on one base, with a ring of room for two.
fn ringed_timers(alloc: Global) -> Result<(Timers, Pass), AllocError>
    ensures pass { IfOk result (λ r. IsPassOf r.0 r.1 × IsLast r.1.known.id × (r.1.known.claims ≡ [])) }
    ensures ring { IfOk result (λ r. (length r.0.about.rings ≡ 1) × (ring_room r.0.about 0 ≡ 2)) }
{
    let timers = vec![in alloc; HARD; 1]?;
    let rings = vec![in alloc; 2u64; 1]?;
    Timers::make_ringed(alloc, 1, &timers, Terms::limited(100), 0, &rings)
}

/// Both counters of a ring rise as far as they are raised.
#[test]
fn a_ring_counts_what_is_put_in_and_taken_off(rt: HostRuntime) -> Result<(), Fail> {
    let (timers, mut pass) = ringed_timers(rt.alloc())?;
    timers.raise_put(&mut pass, 0, 2);
    timers.raise_taken(&mut pass, 0, 1);
    let counts = (
        timers.put_count(&mut pass, 0),
        timers.taken_count(&mut pass, 0),
    );
    timers.close(pass);
    assert_equal(&rt, counts, (2, 1));
    Ok(())
}
