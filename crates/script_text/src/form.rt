//! The forms of line of a script, as the rows of one table, and the words that choose them.
ghost use Rattle.std.specs.Prelude.{◌≡◌, ◌∷◌, [], map};
ghost use Rattle.script_text.specs.CallLines.{timer_call_of};
ghost use Rattle.script_text.specs.Drafts.{AreShort};
ghost use Rattle.script_text.specs.declared.form.Value.TheVariants as values;
ghost use Rattle.script_text.specs.Forms.{field_at, has_form, part, comes_by, row, since, suits};

use crate::script::{Call, Kind, LaneCall};
use crate::value_list::ValueList;
use ktime::{ClockId, Mode};
use record_text::Version;

/// A form of line: what a line's words are, and what it does. The forms are the rows of one table.
#[derive(Clone, Copy, Debug, PartialEq, Eq)]
pub enum Form {
    Version,
    Bases,
    Lanes,
    Limit,
    RawOnce,
    RawEvery,
    RawCancels,
    RawStarts,
    SoftOnce,
    SoftEvery,
    Posix,
    Fd,
    Queued,
    Sleeper,
    Round,
    Start,
    StartRange,
    Cancel,
    Peek,
    Expire,
    SoftExpire,
    Advance,
    Set,
    Suspend,
    Settime,
    Gettime,
    Accept,
    Overrun,
    Read,
    Readable,
    Sleep,
    Interrupt,
    Slept,
    Sigwait,
    Offline,
    Online,
}

/// What a field of a line is filled with: the name of a clock, a mode of starting, or a number that
/// stands for something.
#[derive(Clone, Copy, Debug, PartialEq, Eq)]
pub enum Field {
    Clock,
    Mode,
    Version,
    Bases,
    Lanes,
    Limit,
    /// The number of the timer that is declared.
    NewTimer,
    Lane,
    /// The first lane, which alone may be named here.
    FirstLane,
    Timer,
    Base,
    /// A base below the one that the line has named.
    Heir,
    Budget,
    /// A number without a limit of its own.
    Free,
}

/// What fills a field of a line.
#[derive(Clone, Copy, Debug, PartialEq, Eq)]
pub enum Value {
    Clock(ClockId),
    Mode(Mode),
    Number(u64),
}

// What stands in a place of a list that isn't filled.
impl Default for Value {
    fn default() -> Self {
        Value::Number(0)
    }
}

/// The part of a script that a form of line belongs to.
#[derive(Clone, Copy, Debug, PartialEq, Eq)]
pub enum Part {
    /// A header line, with so many of them before it.
    Header(u64),
    Declaration,
    Round,
    Call,
}

/// A line that is read: its form, and what its fields are filled with, from left to right.
#[derive(Drop)]
pub struct Line {
    pub form: Form,
    pub values: ValueList,
}

// The words that several forms' rows have: a key word, or a field.
const KEY: Option<Field> = None;

const CLOCK: Option<Field> = Some(Field::Clock);

const NEW_TIMER: Option<Field> = Some(Field::NewTimer);

const LANE: Option<Field> = Some(Field::Lane);

const FIRST_LANE: Option<Field> = Some(Field::FirstLane);

const TIMER: Option<Field> = Some(Field::Timer);

const BASE: Option<Field> = Some(Field::Base);

const FREE: Option<Field> = Some(Field::Free);

/// The forms that are chosen by a line's first word.
pub(crate) const PLAIN: &[(&[u8], Form)] = &[
    (b"hrt", Form::Version),
    (b"bases", Form::Bases),
    (b"lanes", Form::Lanes),
    (b"limit", Form::Limit),
    (b"posix", Form::Posix),
    (b"fd", Form::Fd),
    (b"queued", Form::Queued),
    (b"sleeper", Form::Sleeper),
    (b"round", Form::Round),
];

/// Those of a raw timer, by the word after its clock.
pub(crate) const RAW: &[(&[u8], Form)] = &[
    (b"once", Form::RawOnce),
    (b"every", Form::RawEvery),
    (b"cancels", Form::RawCancels),
    (b"starts", Form::RawStarts),
];

/// Those of a timer of the soft context, by the word after its clock.
pub(crate) const SOFT: &[(&[u8], Form)] = &[(b"once", Form::SoftOnce), (b"every", Form::SoftEvery)];

/// Those of a call, by the word after its lane.
pub(crate) const CALLS: &[(&[u8], Form)] = &[
    (b"start", Form::Start),
    (b"startrange", Form::StartRange),
    (b"cancel", Form::Cancel),
    (b"peek", Form::Peek),
    (b"expire", Form::Expire),
    (b"softexpire", Form::SoftExpire),
    (b"advance", Form::Advance),
    (b"set", Form::Set),
    (b"suspend", Form::Suspend),
    (b"settime", Form::Settime),
    (b"gettime", Form::Gettime),
    (b"accept", Form::Accept),
    (b"overrun", Form::Overrun),
    (b"read", Form::Read),
    (b"readable", Form::Readable),
    (b"sleep", Form::Sleep),
    (b"interrupt", Form::Interrupt),
    (b"slept", Form::Slept),
    (b"sigwait", Form::Sigwait),
    (b"offline", Form::Offline),
    (b"online", Form::Online),
];

/// Whether what comes with one version has come by another.
pub fn comes_by(since: Version, version: Version) -> bool
    ensures { result ≡ comes_by since version }
{
    match since {
        Version::One => true,
        Version::Two => matches!(version, Version::Two),
    }
}

impl Form {
    /// The fields of its words from left to right, `None` where a key word stands.
    pub fn fields(self) -> &'static [Option<Field>]
        ensures { result.now ≡ map field_at (row self) }
    {
        match self {
            Form::Version => &[KEY, Some(Field::Version)],
            Form::Bases => &[KEY, Some(Field::Bases)],
            Form::Lanes => &[KEY, Some(Field::Lanes)],
            Form::Limit => &[KEY, Some(Field::Limit)],
            Form::RawOnce => &[KEY, NEW_TIMER, CLOCK, KEY],
            Form::RawEvery => &[KEY, NEW_TIMER, CLOCK, KEY, FREE],
            Form::RawCancels => &[KEY, NEW_TIMER, CLOCK, KEY],
            Form::RawStarts => &[KEY, NEW_TIMER, CLOCK, KEY, FREE, BASE],
            Form::SoftOnce => &[KEY, NEW_TIMER, CLOCK, KEY],
            Form::SoftEvery => &[KEY, NEW_TIMER, CLOCK, KEY, FREE],
            Form::Posix => &[KEY, NEW_TIMER, CLOCK, BASE],
            Form::Fd => &[KEY, NEW_TIMER, CLOCK, BASE],
            Form::Queued => &[KEY, NEW_TIMER, CLOCK, BASE],
            Form::Sleeper => &[KEY, NEW_TIMER, CLOCK, BASE],
            Form::Round => &[KEY],
            Form::Start => &[LANE, KEY, TIMER, Some(Field::Mode), FREE, BASE],
            Form::StartRange => &[LANE, KEY, TIMER, Some(Field::Mode), FREE, FREE, BASE],
            Form::Cancel => &[LANE, KEY, TIMER],
            Form::Peek => &[LANE, KEY, TIMER],
            Form::Expire => &[LANE, KEY, BASE, Some(Field::Budget)],
            Form::SoftExpire => &[LANE, KEY, BASE, Some(Field::Budget)],
            Form::Advance => &[LANE, KEY, FREE],
            Form::Set => &[LANE, KEY, FREE],
            Form::Suspend => &[LANE, KEY, FREE],
            Form::Settime => &[LANE, KEY, TIMER, FREE, FREE, FREE, FREE, FREE],
            Form::Gettime => &[LANE, KEY, TIMER],
            Form::Accept => &[LANE, KEY, TIMER],
            Form::Overrun => &[LANE, KEY, TIMER],
            Form::Read => &[LANE, KEY, TIMER, FREE],
            Form::Readable => &[LANE, KEY, TIMER],
            Form::Sleep => &[LANE, KEY, TIMER, FREE, FREE, FREE],
            Form::Interrupt => &[LANE, KEY, TIMER],
            Form::Slept => &[LANE, KEY, TIMER],
            Form::Sigwait => &[LANE, KEY],
            Form::Offline => &[
                FIRST_LANE,
                KEY,
                BASE,
                Some(Field::Heir),
                Some(Field::Budget),
            ],
            Form::Online => &[FIRST_LANE, KEY, BASE],
        }
    }

    /// The first version that has lines of it.
    pub fn since(self) -> Version
        ensures { result ≡ since self }
    {
        match self {
            Form::SoftOnce
            | Form::SoftEvery
            | Form::StartRange
            | Form::SoftExpire
            | Form::Offline
            | Form::Online
            | Form::Queued
            | Form::Sigwait
            | Form::Sleeper
            | Form::Sleep
            | Form::Interrupt
            | Form::Slept => Version::Two,
            _ => Version::One,
        }
    }

    /// Whether scripts of this version have lines of it.
    pub fn is_in(self, version: Version) -> bool
        ensures { result ≡ has_form version self }
    {
        comes_by(self.since(), version)
    }

    /// The part of a script that lines of it stand in.
    pub fn part(self) -> Part
        ensures { result ≡ part self }
    {
        match self {
            Form::Version => Part::Header(0),
            Form::Bases => Part::Header(1),
            Form::Lanes => Part::Header(2),
            Form::Limit => Part::Header(3),
            Form::RawOnce
            | Form::RawEvery
            | Form::RawCancels
            | Form::RawStarts
            | Form::SoftOnce
            | Form::SoftEvery
            | Form::Posix
            | Form::Fd
            | Form::Queued
            | Form::Sleeper => Part::Declaration,
            Form::Round => Part::Round,
            _ => Part::Call,
        }
    }

    /// The call that a line of it asks for, where it has the number of a timer and nothing else.
    #[tactic(auto, unfolding(crate::specs::CallLines::timer_call_of))]
    pub(crate) fn timer_call(self, lane: u64, timer: u64) -> Option<LaneCall>
        requires { AreShort (row self) (values.Number lane ∷ values.Number timer ∷ []) }
        ensures { result ≡ timer_call_of self lane timer }
    {
        let (lane, call) = match self {
            Form::Cancel => {
                let (lane, timer) = (lane as u32, timer as u32);
                (lane, Call::Cancel { timer })
            }
            Form::Peek => {
                let (lane, timer) = (lane as u32, timer as u32);
                (lane, Call::Peek { timer })
            }
            Form::Gettime => {
                let (lane, timer) = (lane as u32, timer as u32);
                (lane, Call::Gettime { timer })
            }
            Form::Accept => {
                let (lane, timer) = (lane as u32, timer as u32);
                (lane, Call::Accept { timer })
            }
            Form::Overrun => {
                let (lane, timer) = (lane as u32, timer as u32);
                (lane, Call::Overrun { timer })
            }
            Form::Readable => {
                let (lane, timer) = (lane as u32, timer as u32);
                (lane, Call::Readable { timer })
            }
            Form::Interrupt => {
                let (lane, timer) = (lane as u32, timer as u32);
                (lane, Call::Interrupt { timer })
            }
            Form::Slept => {
                let (lane, timer) = (lane as u32, timer as u32);
                (lane, Call::Slept { timer })
            }
            _ => return None,
        };
        Some(LaneCall { lane, call })
    }

    /// Whether its call can be made on a timer of this kind.
    pub fn suits(self, kind: Kind) -> bool
        ensures { result ≡ suits self kind }
    {
        match self {
            Form::Peek => true,
            Form::Start | Form::StartRange | Form::Cancel => matches!(kind, Kind::Raw { .. }),
            Form::Settime | Form::Gettime => matches!(
                kind,
                Kind::Posix { .. } | Kind::Fd { .. } | Kind::Queued { .. }
            ),
            Form::Accept | Form::Overrun => {
                matches!(kind, Kind::Posix { .. } | Kind::Queued { .. })
            }
            Form::Read | Form::Readable => matches!(kind, Kind::Fd { .. }),
            Form::Sleep | Form::Interrupt | Form::Slept => matches!(kind, Kind::Sleeper { .. }),
            _ => false,
        }
    }
}
