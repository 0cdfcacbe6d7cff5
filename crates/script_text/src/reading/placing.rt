//! The causes that refuse a line after the lines before it.
ghost use Rattle.std.specs.Prelude.{◌≡◌};
ghost use Rattle.script_text.specs.Forms.{row};
ghost use Rattle.script_text.specs.Scripts.{most_script_bases, most_events, most_lanes, most_timers};
ghost use Rattle.script_text.specs.Refusals.{base_named, check_line, check_count, check_kind, check_number, check_value, check_values, is_placed, drafted_kind};

use crate::form::{Field, Form, Line, Part, Value};
use crate::reading::drafts::Draft;
use crate::refusal::Cause;
use crate::script::{Callback, Kind};
use record_text::Version;
use seq_timer::Context;

/// How many call lines a script may have.
const MOST_CALLS: u64 = 65536;

/// How many timers one expire may claim.
const MOST_BUDGET: u64 = 4096;

/// How many bases a script of a version may have.
fn most_bases(version: Version) -> u64
    ensures { result ≡ most_script_bases version }
{
    match version {
        Version::One => 8,
        Version::Two => 64,
    }
}

/// How many lanes a script of a version may have.
fn most_lanes(version: Version) -> u64
    ensures { result ≡ most_lanes version }
{
    match version {
        Version::One => 16,
        Version::Two => 64,
    }
}

/// How many timers a script of a version may declare.
fn most_timers(version: Version) -> usize
    ensures { result ≡ most_timers version }
{
    match version {
        Version::One => 256,
        Version::Two => 4096,
    }
}

/// The greatest limit on a timer's entries in a script of a version.
fn most_events(version: Version) -> u64
    ensures { result ≡ most_events version }
{
    match version {
        Version::One => (1 << 48) - 16,
        Version::Two => (1 << 48) - 2048,
    }
}

/// The first cause that refuses a line that was read by itself.
#[tactic(auto, unfolding(crate::specs::Refusals::check_line))]
pub fn check_line(draft: &Draft, line: &Line) -> Option<Cause>
    ensures { result ≡ check_line draft.now line.now }
{
    let part = line.form.part();
    let values = line.values.as_slice();
    if !is_placed(draft, part) {
        return Some(Cause::BadPlace);
    }
    if let Some(cause) = check_count(draft, part) {
        return Some(cause);
    }
    if let Some(cause) = check_values(draft, line.form, values) {
        return Some(cause);
    }
    check_kind(draft, line.form, values)
}

/// A line of this part may stand here.
#[tactic(auto, unfolding(crate::specs::Refusals::is_placed))]
fn is_placed(draft: &Draft, part: Part) -> bool
    ensures { result ≡ is_placed draft.now part }
{
    match part {
        Part::Header(n) => draft.headers == n,
        Part::Declaration => draft.headers == 4 && draft.begun.is_none(),
        Part::Round => draft.headers == 4,
        Part::Call => draft.begun.is_some(),
    }
}

/// The cause that refuses one more line of this part.
#[tactic(auto, unfolding(crate::specs::Refusals::check_count))]
fn check_count(draft: &Draft, part: Part) -> Option<Cause>
    ensures { result ≡ check_count draft.now part }
{
    match part {
        Part::Declaration if draft.timers.as_slice().len() >= most_timers(draft.version) => {
            Some(Cause::TimerLimit)
        }
        Part::Call if draft.calls >= MOST_CALLS => Some(Cause::CallLimit),
        _ => None,
    }
}

/// The cause that refuses a number in its field, behind the base that its line has named.
#[tactic(auto, unfolding(crate::specs::Refusals::check_number))]
fn check_number(draft: &Draft, base: u64, field: Field, n: u64) -> Option<Cause>
    ensures { result ≡ check_number draft.now base field n }
{
    let timers = draft.timers.as_slice().len() as u64;
    match field {
        Field::Version if n != 1 && n != 2 => Some(Cause::Version),
        Field::Bases if n < 1 || n > most_bases(draft.version) => Some(Cause::BaseLimit),
        Field::Base if n >= u64::from(draft.bases) => Some(Cause::BaseLimit),
        Field::Lanes if n < 1 || n > most_lanes(draft.version) => Some(Cause::LaneLimit),
        Field::Lane if n >= u64::from(draft.lanes) => Some(Cause::LaneLimit),
        Field::FirstLane if n > 0 => Some(Cause::LaneLimit),
        Field::Limit if n < 1 || n > most_events(draft.version) => Some(Cause::EventLimit),
        Field::NewTimer if n != timers => Some(Cause::BadId),
        Field::Timer if n >= timers => Some(Cause::NoTimer),
        Field::Heir if n >= base => Some(Cause::HeirLimit),
        Field::Budget if n > MOST_BUDGET => Some(Cause::BudgetLimit),
        _ => None,
    }
}

/// The cause that refuses what fills a field.
fn check_value(draft: &Draft, base: u64, field: Field, value: Value) -> Option<Cause>
    ensures { result ≡ check_value draft.now base field value }
{
    match value {
        Value::Number(n) => check_number(draft, base, field, n),
        _ => None,
    }
}

/// The base that a line has named, after one more of its fields.
fn base_named(base: u64, field: Field, value: Value) -> u64
    ensures { result ≡ base_named base value field }
{
    match (value, field) {
        (Value::Number(n), Field::Base) => n,
        _ => base,
    }
}

/// The first cause in what fills the fields of a form.
fn check_values(draft: &Draft, form: Form, values: &[Value]) -> Option<Cause>
    ensures { result ≡ check_values draft.now 0 (row form) values.now }
{
    let mut base = 0;
    let mut rest = values;
    for field in form.fields() {
        let Some(field) = field else {
            continue;
        };
        let Some((value, more)) = rest.split_first() else {
            return None;
        };
        if let Some(cause) = check_value(draft, base, *field, *value) {
            return Some(cause);
        }
        base = base_named(base, *field, *value);
        rest = more;
    }
    None
}

/// The kind of the timer of a number.
fn drafted_kind(draft: &Draft, timer: u64) -> Kind
    ensures { result ≡ drafted_kind draft.now timer }
{
    match draft.timers.as_slice().get(timer as usize) {
        Some(declared) => declared.kind,
        None => Kind::Raw {
            context: Context::Hard,
            callback: Callback::Once,
        },
    }
}

/// The cause that refuses a call on a timer whose kind it doesn't suit.
#[tactic(auto, unfolding(crate::specs::Refusals::check_kind))]
fn check_kind(draft: &Draft, form: Form, values: &[Value]) -> Option<Cause>
    ensures { result ≡ check_kind draft.now form (row form) values.now }
{
    let ([_, None, Some(Field::Timer), ..], [_, Value::Number(timer), ..]) = (form.fields(), values)
    else {
        return None;
    };
    if form.suits(drafted_kind(draft, *timer)) {
        return None;
    }
    Some(Cause::WrongKind)
}
