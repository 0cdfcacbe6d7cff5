//! Why a script is refused, and the line that tells it.
ghost use Rattle.std.specs.Prelude.{◌≡◌, IfOk, string_bytes};
ghost use Rattle.script_text.specs.Refusals.{cause_word, refusal_text};
ghost use Rattle.script_text.specs.declared.refusal.ParseError.TheVariants.{OutOfMemory};

use std::alloc::{AllocError, AllocFailed, Global};

/// Why a script is refused, in the order in which causes are looked for in a line.
#[derive(Clone, Copy, Debug, PartialEq, Eq)]
pub enum Cause {
    /// The script has more than 1048576 bytes.
    TooLong,
    /// A byte that is no letter, digit, sign or space.
    BadByte,
    /// A space at the beginning or the end, or two together.
    BadSpace,
    /// A word that names no form, clock or mode.
    UnknownWord,
    /// Another number of words than the form has.
    WordCount,
    /// A word that is no number from 0 to the end of time, without a 0 before it.
    BadNumber,
    /// A line of this form may not stand here.
    BadPlace,
    /// More timers than the version allows.
    TimerLimit,
    /// More than 65536 calls.
    CallLimit,
    Version,
    BaseLimit,
    LaneLimit,
    EventLimit,
    /// A declaration out of its order.
    BadId,
    /// No timer has this number.
    NoTimer,
    /// A base that can't take the timers of another, whose number isn't greater.
    HeirLimit,
    BudgetLimit,
    /// The call isn't for a timer of this kind.
    WrongKind,
    /// The script ends before its fourth header line.
    Unfinished,
}

/// The name of each of these causes, where it is the one.
macro_rules! name_of {
    ($cause:expr; $($name:ident)+) => {
        match $cause {
            $(Cause::$name => stringify!($name),)+
        }
    };
}

impl Cause {
    /// Its word in the text of a refusal, which is its name.
    pub fn word(self) -> &'static str
        ensures { result.now ≡ cause_word self }
    {
        name_of!(self;
            TooLong BadByte BadSpace UnknownWord WordCount BadNumber BadPlace TimerLimit CallLimit
            Version BaseLimit LaneLimit EventLimit BadId NoTimer HeirLimit BudgetLimit WrongKind Unfinished
        )
    }
}

/// A script's refusal: the number of the line, from 1, or 0 for the script as a whole, and why.
#[derive(Clone, Copy, Debug, PartialEq, Eq)]
pub struct Refused {
    pub line: u32,
    pub cause: Cause,
}

impl Refused {
    /// The line that tells it.
    pub fn text(self, alloc: Global) -> Result<String, AllocError>
        ensures { IfOk result (λ t. string_bytes t ≡ refusal_text self) }
    {
        let line = self.line;
        let word = self.cause.word();
        Ok(format!(in alloc; "line {line}: {word}\n")?)
    }
}

/// Why no script was read.
#[derive(Debug, Drop)]
pub enum ParseError {
    Refused(Refused),
    OutOfMemory,
}

impl From<AllocError> for ParseError {
    ghost from_gives = { λ _ e. e ≡ OutOfMemory };

    fn from(_e: AllocError) -> ParseError {
        ParseError::OutOfMemory
    }
}

impl<T: Drop> From<AllocFailed<T>> for ParseError {
    ghost from_gives = { λ _ e. e ≡ OutOfMemory };

    fn from(_e: AllocFailed<T>) -> ParseError {
        ParseError::OutOfMemory
    }
}
