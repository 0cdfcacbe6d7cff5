//! The declaration or the call that a line asks for.
ghost use Rattle.std.specs.Prelude.{◌≡◌, ◌⊎◌};
ghost use Rattle.script_text.specs.Forms.{row};
ghost use Rattle.script_text.specs.declared.form.Form.TheVariants as forms;
ghost use Rattle.script_text.specs.declared.script.Kind.TheVariants as kinds;
ghost use Rattle.seq_timer.specs.declared.context.Context.TheVariants as contexts;
ghost use Rattle.script_text.specs.declared.script.Call.TheVariants as calls;
ghost use Rattle.script_text.specs.Drafts.{AreShort, declaration_of};
ghost use Rattle.script_text.specs.CallLines.{call_of, object_call_of, plain_call_of};

use crate::form::Form;
use crate::form::Value::{self, Clock, Mode, Number};
use crate::script::{Call, Callback, Declaration, Kind, LaneCall, StartRequest};
use ktime::{TimeSpec, Write};
use seq_timer::Context;

/// What a declaration declares, by its form and values.
#[tactic(auto, unfolding(crate::specs::Drafts::declaration_of))]
pub fn declaration(form: Form, values: &[Value]) -> Option<Declaration>
    requires { AreShort (row form) values.now }
    ensures { result ≡ declaration_of form values.now }
{
    let (clock, kind) = match (form, values) {
        (Form::RawOnce, [Number(_), Clock(clock)]) => (clock, hard(Callback::Once)),
        (Form::RawEvery, [Number(_), Clock(clock), Number(interval)]) => {
            let interval = *interval;
            (clock, hard(Callback::Every { interval }))
        }
        (Form::RawCancels, [Number(_), Clock(clock)]) => (clock, hard(Callback::Cancels)),
        (Form::RawStarts, [Number(_), Clock(clock), Number(ns), Number(base)]) => {
            let (ns, base) = (*ns, *base as u32);
            (clock, hard(Callback::Starts { ns, base }))
        }
        (Form::SoftOnce, [Number(_), Clock(clock)]) => (clock, soft(Callback::Once)),
        (Form::SoftEvery, [Number(_), Clock(clock), Number(interval)]) => {
            let interval = *interval;
            (clock, soft(Callback::Every { interval }))
        }
        (Form::Posix, [Number(_), Clock(clock), Number(base)]) => {
            let base = *base as u32;
            (clock, Kind::Posix { base })
        }
        (Form::Fd, [Number(_), Clock(clock), Number(base)]) => {
            let base = *base as u32;
            (clock, Kind::Fd { base })
        }
        (Form::Queued, [Number(_), Clock(clock), Number(base)]) => {
            let base = *base as u32;
            (clock, Kind::Queued { base })
        }
        (Form::Sleeper, [Number(_), Clock(clock), Number(base)]) => {
            let base = *base as u32;
            (clock, Kind::Sleeper { base })
        }
        _ => return None,
    };
    let clock = *clock;
    Some(Declaration { clock, kind })
}

fn hard(callback: Callback) -> Kind
    ensures { result ≡ kinds.Raw contexts.Hard callback }
{
    let context = Context::Hard;
    Kind::Raw { context, callback }
}

fn soft(callback: Callback) -> Kind
    ensures { result ≡ kinds.Raw contexts.Soft callback }
{
    let context = Context::Soft;
    Kind::Raw { context, callback }
}

/// The call that a line asks for, and its lane, by its form and values.
#[tactic(auto, unfolding(crate::specs::CallLines::call_of, crate::specs::CallLines::on_timer_of))]
pub fn call(form: Form, values: &[Value]) -> Option<LaneCall>
    requires { AreShort (row form) values.now }
    ensures { result ≡ call_of form values.now }
{
    let on_timer = match values {
        [Number(lane), Number(timer)] => form.timer_call(*lane, *timer),
        _ => None,
    };
    if on_timer.is_some() {
        return on_timer;
    }
    let plain = plain_call(form, values);
    if plain.is_some() {
        return plain;
    }
    object_call(form, values)
}

/// The call of a raw timer, of a base or of the clock that a line asks for.
#[tactic(auto, unfolding(crate::specs::CallLines::plain_call_of))]
fn plain_call(form: Form, values: &[Value]) -> Option<LaneCall>
    requires { AreShort (row form) values.now }
    ensures { result ≡ plain_call_of form values.now }
{
    let (lane, call) = match (form, values) {
        (Form::Start | Form::StartRange, values) => return start(form, values),
        (Form::Expire, [Number(lane), Number(base), Number(budget)]) => {
            (lane, expire(Context::Hard, *base as u32, *budget))
        }
        (Form::SoftExpire, [Number(lane), Number(base), Number(budget)]) => {
            (lane, expire(Context::Soft, *base as u32, *budget))
        }
        (Form::Offline, [Number(lane), Number(base), Number(heir), Number(budget)]) => {
            (lane, offline(*base as u32, *heir as u32, *budget))
        }
        (Form::Online, [Number(lane), Number(base)]) => (lane, online(*base as u32)),
        (Form::Advance, [Number(lane), Number(by)]) => (lane, write(Write::Advance { by: *by })),
        (Form::Set, [Number(lane), Number(to)]) => (lane, write(Write::Set { to: *to })),
        (Form::Suspend, [Number(lane), Number(by)]) => (lane, write(Write::Suspend { by: *by })),
        _ => return None,
    };
    let lane = *lane as u32;
    Some(LaneCall { lane, call })
}

/// The start that a line of these values asks for, with a slack or without one.
#[tactic(auto, unfolding(crate::specs::CallLines::plain_call_of))]
fn start(form: Form, values: &[Value]) -> Option<LaneCall>
    requires form { (form ≡ forms.Start) ⊎ (form ≡ forms.StartRange) }
    requires short { AreShort (row form) values.now }
    ensures { result ≡ plain_call_of form values.now }
{
    let (lane, timer, mode, ns, slack, base) = match (form, values) {
        (
            Form::Start,
            [
                Number(lane),
                Number(timer),
                Mode(mode),
                Number(ns),
                Number(base),
            ],
        ) => { (lane, timer, mode, ns, None, base) }
        (
            Form::StartRange,
            [
                Number(lane),
                Number(timer),
                Mode(mode),
                Number(ns),
                Number(slack),
                Number(base),
            ],
        ) => (lane, timer, mode, ns, Some(*slack), base),
        _ => return None,
    };
    let (lane, timer, mode, ns, base) = (*lane as u32, *timer as u32, *mode, *ns, *base as u32);
    let request = StartRequest {
        mode,
        ns,
        slack,
        base,
    };
    let call = Call::Start { timer, request };
    Some(LaneCall { lane, call })
}

fn expire(context: Context, base: u32, budget: u64) -> Call
    ensures { result ≡ calls.Expire context base budget }
{
    Call::Expire {
        context,
        base,
        budget,
    }
}

fn offline(base: u32, heir: u32, budget: u64) -> Call
    ensures { result ≡ calls.Offline base heir budget }
{
    Call::Offline { base, heir, budget }
}

fn online(base: u32) -> Call
    ensures { result ≡ calls.Online base }
{
    Call::Online { base }
}

fn write(write: Write) -> Call
    ensures { result ≡ calls.Clock write }
{
    Call::Clock { write }
}

/// The call of an object, or of the queue of signals, that a line asks for.
#[tactic(auto, unfolding(crate::specs::CallLines::object_call_of))]
fn object_call(form: Form, values: &[Value]) -> Option<LaneCall>
    requires { AreShort (row form) values.now }
    ensures { result ≡ object_call_of form values.now }
{
    let (lane, call) = match (form, values) {
        (Form::Settime, values) => return settime(values),
        (Form::Sleep, values) => return sleep(values),
        (Form::Read, [Number(lane), Number(timer), Number(len)]) => {
            let (timer, len) = (*timer as u32, *len);
            (lane, Call::Read { timer, len })
        }
        (Form::Sigwait, [Number(lane)]) => (lane, Call::Sigwait),
        _ => return None,
    };
    let lane = *lane as u32;
    Some(LaneCall { lane, call })
}

/// The settime that a line of these values asks for.
#[tactic(auto, unfolding(crate::specs::CallLines::object_call_of))]
fn settime(values: &[Value]) -> Option<LaneCall>
    requires { AreShort (row forms.Settime) values.now }
    ensures { result ≡ object_call_of forms.Settime values.now }
{
    let [
        Number(lane),
        Number(timer),
        Number(flags),
        Number(sec),
        Number(nsec),
        Number(period_sec),
        Number(period_nsec),
    ] = values
    else {
        return None;
    };
    let call = Call::Settime {
        timer: *timer as u32,
        flags: *flags,
        value: TimeSpec {
            sec: *sec,
            nsec: *nsec,
        },
        interval: TimeSpec {
            sec: *period_sec,
            nsec: *period_nsec,
        },
    };
    let lane = *lane as u32;
    Some(LaneCall { lane, call })
}

/// The sleep that a line of these values asks for.
#[tactic(auto, unfolding(crate::specs::CallLines::object_call_of))]
fn sleep(values: &[Value]) -> Option<LaneCall>
    requires { AreShort (row forms.Sleep) values.now }
    ensures { result ≡ object_call_of forms.Sleep values.now }
{
    let [
        Number(lane),
        Number(timer),
        Number(flags),
        Number(sec),
        Number(nsec),
    ] = values
    else {
        return None;
    };
    let call = Call::Sleep {
        timer: *timer as u32,
        flags: *flags,
        time: TimeSpec {
            sec: *sec,
            nsec: *nsec,
        },
    };
    let lane = *lane as u32;
    Some(LaneCall { lane, call })
}
