//! What the program is asked for, and which threads work.
ghost use Rattle.std.specs.Prelude.{◌<◌, IfSome};

#[derive(Clone, Copy, Debug, PartialEq, Eq)]
pub enum Task {
    /// Does a few calls in each case, and prints what they made.
    Check,
    /// Prints the nanoseconds that the calls of each case take.
    Measure,
}

/// What the program times.
#[derive(Clone, Copy, Debug, PartialEq, Eq)]
pub enum Bench {
    Trees,
    Rows,
    Bases,
    Timers,
    Clocks,
    Objects,
}

impl Bench {
    /// All of them, as a check takes them.
    pub const ALL: [Bench; 6] = [
        Bench::Trees,
        Bench::Rows,
        Bench::Bases,
        Bench::Timers,
        Bench::Clocks,
        Bench::Objects,
    ];

    /// The bench that the program's first word names.
    pub fn named(word: &str) -> Option<Bench> {
        Some(match word {
            "trees" => Bench::Trees,
            "rows" => Bench::Rows,
            "bases" => Bench::Bases,
            "timers" => Bench::Timers,
            "clocks" => Bench::Clocks,
            "objects" => Bench::Objects,
            _ => return None,
        })
    }
}

/// Which threads work. The first one works on base 0.
#[derive(Clone, Copy, Debug, PartialEq, Eq)]
pub enum Workers {
    One,
    OnTwoBases,
    OnOneBase,
}

impl Workers {
    pub fn name(self) -> &'static str {
        match self {
            Workers::One => "one thread",
            Workers::OnTwoBases => "two threads, two bases",
            Workers::OnOneBase => "two threads, one base",
        }
    }

    /// The base of the second thread, if there is one.
    pub fn second(self) -> Option<u32>
        ensures { IfSome result (λ base. base < 2) }
    {
        match self {
            Workers::One => None,
            Workers::OnTwoBases => Some(1),
            Workers::OnOneBase => Some(0),
        }
    }

    /// The base of the second thread's timers, also where there is no such thread.
    pub fn other(self) -> u32
        ensures { result < 2 }
    {
        match self {
            Workers::One | Workers::OnTwoBases => 1,
            Workers::OnOneBase => 0,
        }
    }
}
