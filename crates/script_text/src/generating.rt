//! Large scripts that are made from a number.
ghost use Rattle.std.specs.Prelude.{◌≡◌, ◌+◌, ◌*◌, ◌/◌, ◌<◌, ◌≤◌, ◌++◌, ◌∷◌, [], IfOk, OnOk, string_bytes, map};
ghost use Rattle.script_text.specs.Generator.{call_by, clock_round, draw, drawn_call, expiry_round, four_turns, generated, lane_timers, lines_bytes, next_number, number_after, script_bytes, timers_of_lane, turn, drawn_turns};
ghost use Rattle.script_text.specs.Scripts.{declaration_lines, header_lines, round_lines, IsInRange, Reads};
ghost use Rattle.script_text.specs.CallLines.{call_line};
ghost use Rattle.seq_timer.specs.declared.context.Context.TheVariants as contexts;
ghost use Rattle.record_text.specs.declared.version.Version.TheVariants as versions;
ghost use Rattle.script_text.specs.declared.script.Call.TheVariants as calls;
ghost use Rattle.std.specs.List.{flat_map, range_with_len};

use std::alloc::{AllocError, Global};

/// How many entries a timer of such a script may have.
const LIMIT: u64 = 1000000;

/// The interval of a lane's periodic timer, in nanoseconds.
const INTERVAL: u64 = 100;

/// How far the clock moves in one write.
const ADVANCE: u64 = 50;

/// How many timers an expiry run may claim.
const BUDGET: u64 = 8;

/// How many turns are made in one round.
const TURNS: u64 = 4;

/// The bytes of the script of so many turns of these lanes that this seed makes.
pub fn generate(alloc: Global, seed: u64, lanes: u32, calls: u64) -> Result<Vec<u8>, AllocError>
    requires seed { seed ≤ 2147483647 }
    requires lanes { (1 ≤ lanes) × (lanes ≤ 8) }
    requires calls { calls ≤ 4096 }
    ensures bytes { IfOk result (λ v. v.items ≡ script_bytes (generated seed lanes calls)) }
    ensures reads { IfOk result (λ v. Reads v.items (generated seed lanes calls)) }
    ensures range { IsInRange (generated seed lanes calls) }
{
    write_script(alloc, seed, lanes, calls)
}

fn write_script(alloc: Global, seed: u64, lanes: u32, calls: u64) -> Result<Vec<u8>, AllocError>
    requires seed { seed ≤ 2147483647 }
    requires lanes { lanes ≤ 8 }
    requires calls { calls ≤ 4096 }
    ensures { IfOk result (λ v. v.items ≡ script_bytes (generated seed lanes calls)) }
{
    let mut out = String::new(alloc);
    write_header(&mut out, lanes)?;
    write_timers(&mut out, lanes)?;
    write_turns(&mut out, seed, lanes, calls)?;
    write_clock_round(&mut out)?;
    write_expiry_round(&mut out, lanes)?;
    Ok(out.into_bytes())
}

fn write_header(out: &mut String, lanes: u32) -> Result<(), AllocError>
    ensures { OnOk result (string_bytes out.new ≡ string_bytes out.old ++ lines_bytes (header_lines versions.One lanes lanes 1000000)) }
{
    let version = 1;
    writeln!(
        out,
        "hrt {version}\nbases {lanes}\nlanes {lanes}\nlimit {LIMIT}"
    )?;
    Ok(())
}

/// Writes the declarations of the timers of these lanes.
fn write_timers(out: &mut String, lanes: u32) -> Result<(), AllocError>
    requires { lanes ≤ 8 }
    ensures { OnOk result (string_bytes out.new ≡ string_bytes out.old ++ lines_bytes (declaration_lines 0 (lane_timers lanes))) }
{
    for lane in 0..lanes {
        write_two_timers(out, 2 * lane)?;
    }
    Ok(())
}

/// Writes the declarations of a lane's timers, of which this is the number of the first.
fn write_two_timers(out: &mut String, first: u32) -> Result<(), AllocError>
    requires { first < 16 }
    ensures { OnOk result (string_bytes out.new ≡ string_bytes out.old ++ lines_bytes (declaration_lines first (timers_of_lane first))) }
{
    let second = first + 1;
    writeln!(
        out,
        "raw {first} monotonic every {INTERVAL}\nraw {second} monotonic once"
    )?;
    Ok(())
}

/// Writes the rounds of all turns.
fn write_turns(out: &mut String, seed: u64, lanes: u32, calls: u64) -> Result<(), AllocError>
    requires seed { seed ≤ 2147483647 }
    requires lanes { lanes ≤ 8 }
    requires calls { calls ≤ 4096 }
    ensures { OnOk result (string_bytes out.new ≡ string_bytes out.old
        ++ lines_bytes (flat_map round_lines (flat_map (four_turns seed lanes calls) (range_with_len 0 ((calls + 3) / 4))))) }
{
    let mut x = seed;
    for i in 0..(calls + 3) / TURNS {
        write_clock_round(out)?;
        x = write_round(out, x, lanes, TURNS.min(calls - TURNS * i))?;
    }
    Ok(())
}

/// Writes a round in which lane 0 moves the clock on.
fn write_clock_round(out: &mut String) -> Result<(), AllocError>
    ensures { OnOk result (string_bytes out.new ≡ string_bytes out.old ++ lines_bytes (round_lines clock_round)) }
{
    let lane = 0;
    writeln!(out, "round\n{lane} advance {ADVANCE}")?;
    Ok(())
}

/// Writes a round in which each lane expires its base.
fn write_expiry_round(out: &mut String, lanes: u32) -> Result<(), AllocError>
    ensures { OnOk result (string_bytes out.new ≡ string_bytes out.old ++ lines_bytes (round_lines (expiry_round lanes))) }
{
    out.push_str("round\n")?;
    for lane in 0..lanes {
        write_expire(out, lane)?;
    }
    Ok(())
}

fn write_expire(out: &mut String, lane: u32) -> Result<(), AllocError>
    ensures { OnOk result (string_bytes out.new ≡ string_bytes out.old ++ lines_bytes (call_line lane (calls.Expire contexts.Hard lane 8) ∷ [])) }
{
    writeln!(out, "{lane} expire {lane} {BUDGET}")?;
    Ok(())
}

/// Writes a round of so many turns that draw from x on, and gives the number from which the next draws.
fn write_round(out: &mut String, x: u64, lanes: u32, count: u64) -> Result<u64, AllocError>
    requires small { x < 2147483648 }
    requires lanes { lanes ≤ 8 }
    requires count { count ≤ 4 }
    ensures text { OnOk result (string_bytes out.new ≡ string_bytes out.old ++ lines_bytes (round_lines (record { calls = drawn_turns x lanes count }))) }
    ensures next { IfOk result (λ y. (y ≡ number_after (3 * lanes * count) x) × (y < 2147483648)) }
{
    out.push_str("round\n")?;
    let mut now = x;
    for i in 0..count {
        now = write_turn(out, now, lanes)?;
    }
    Ok(now)
}

/// Writes a turn that draws from x on, and gives the number from which the next draws.
fn write_turn(out: &mut String, x: u64, lanes: u32) -> Result<u64, AllocError>
    requires small { x < 2147483648 }
    requires lanes { lanes ≤ 8 }
    ensures text { OnOk result (string_bytes out.new ≡ string_bytes out.old ++ lines_bytes (map (λ c. call_line c.lane c.call) (turn x lanes))) }
    ensures next { IfOk result (λ y. (y ≡ number_after (3 * lanes) x) × (y < 2147483648)) }
{
    let mut now = x;
    for lane in 0..lanes {
        let a = next(now);
        let b = next(a);
        now = next(b);
        write_call(out, lane, a / 65536, b / 65536, now / 65536)?;
    }
    Ok(now)
}

/// The number after x.
fn next(x: u64) -> u64
    requires { x < 2147483648 }
    ensures next { result ≡ next_number x }
    ensures small { result < 2147483648 }
{
    (x * 1103515245 + 12345) % 2147483648
}

/// Writes a lane's call, by three draws.
#[tactic(auto, unfolding(crate::specs::Generator::call_by))]
fn write_call(out: &mut String, lane: u32, a: u64, b: u64, d: u64) -> Result<(), AllocError>
    requires { lane < 8 }
    ensures { OnOk result (string_bytes out.new ≡ string_bytes out.old ++ lines_bytes (call_line lane (call_by lane a b d) ∷ [])) }
{
    let timer = 2 * u64::from(lane) + b % 2;
    let ns = d % 100;
    if a % 4 == 0 {
        writeln!(out, "{lane} cancel {timer}")?;
    } else if a % 4 == 3 {
        write_expire(out, lane)?;
    } else {
        writeln!(out, "{lane} start {timer} rel {ns} {lane}")?;
    }
    Ok(())
}
