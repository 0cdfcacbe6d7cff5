//! The summary of a record.
ghost use Rattle.std.specs.Prelude.{◌≡◌, ◌+◌, ℕ, IfOk, length};
ghost use Rattle.std.specs.List.{sum_by};
ghost use Rattle.record_text.specs.declared.record.Entry.{Entry};
ghost use Rattle.script_text.specs.Summary.{cancels_in, claims_in, entry_count, periods_told, summary_of};

use record_text::{Answer, Entry, ItemList, RunRecord, TimerLine};
use seq_timer::{EventBy, Reply};
use std::alloc::{AllocError, Global};

/// The summary of a record, in nine lines. A record for which a sum has more than 128 bits would have more lines than
/// memory holds: then memory is said to be out.
pub fn summary(alloc: Global, run: &RunRecord) -> Result<Vec<u8>, AllocError>
    ensures { IfOk result (λ bytes. bytes.items ≡ summary_of run.now) }
{
    let lanes = run.answers.as_slice().len();
    let calls = count_answers(run.answers.as_slice())?;
    let clock = run.clock.as_slice().len();
    let timers = run.timers.as_slice();
    let entries = total::<Entries>(timers)?;
    let claims = total::<Claims>(timers)?;
    let cancels = total::<Cancels>(timers)?;
    let periods = total::<Periods>(timers)?;
    let mut out = String::new(alloc);
    writeln!(
        out,
        "summary 1\nlanes {lanes}\ncalls {calls}\nclock {clock}\nentries {entries}"
    )?;
    writeln!(
        out,
        "claims {claims}\ncancels {cancels}\nperiods {periods}\nend"
    )?;
    Ok(out.into_bytes())
}

/// A sum with one more number, where it has at most 128 bits.
fn add(sum: u128, more: u128) -> Result<u128, AllocError>
    ensures { IfOk result (λ n. n ≡ sum + more) }
{
    sum.checked_add(more).ok_or(AllocError)
}

/// How many answers all lanes have.
fn count_answers(lanes: &[ItemList<Answer>]) -> Result<u128, AllocError>
    ensures { IfOk result (λ n. n ≡ sum_by length lanes.now) }
{
    let mut sum = 0;
    for answers in lanes {
        sum = add(sum, answers.as_slice().len() as u128)?;
    }
    Ok(sum)
}

/// What an entry counts for in a sum over the entries of all timers.
trait Amount {
    ghost amount: { Entry → ℕ };

    fn amount(entry: Entry) -> u64
        ensures { result ≡ amount entry };
}

struct Entries;

struct Claims;

struct Cancels;

struct Periods;

impl Amount for Entries {
    ghost amount = { entry_count };

    fn amount(_entry: Entry) -> u64 {
        1
    }
}

impl Amount for Claims {
    ghost amount = { λ e. claims_in e.event };

    fn amount(entry: Entry) -> u64 {
        match entry.event {
            EventBy::Claim { .. } => 1,
            _ => 0,
        }
    }
}

impl Amount for Cancels {
    ghost amount = { λ e. cancels_in e.event };

    fn amount(entry: Entry) -> u64 {
        match entry.event {
            EventBy::Cancel => 1,
            _ => 0,
        }
    }
}

impl Amount for Periods {
    ghost amount = { λ e. periods_told e.reply };

    fn amount(entry: Entry) -> u64 {
        match entry.reply {
            Reply::Forward { moved } => moved.count,
            _ => 0,
        }
    }
}

/// What the entries of all timers count for.
fn total<A: Amount>(timers: &[ItemList<TimerLine>]) -> Result<u128, AllocError>
    ensures { IfOk result (λ n. n ≡ sum_by (λ lines. sum_by (λ line. A.amount line.entry) lines) timers.now) }
{
    let mut sum = 0;
    for lines in timers {
        sum = add(sum, total_of::<A>(lines.as_slice())?)?;
    }
    Ok(sum)
}

/// What the entries of one timer count for.
fn total_of<A: Amount>(lines: &[TimerLine]) -> Result<u128, AllocError>
    ensures { IfOk result (λ n. n ≡ sum_by (λ line. A.amount line.entry) lines.now) }
{
    let mut sum = 0;
    for line in lines {
        sum = add(sum, u128::from(A::amount(line.entry)))?;
    }
    Ok(sum)
}
