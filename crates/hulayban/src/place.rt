//! Names for a system and a handle of it, by which a session needs no condition.
use std::marker::Brand;

/// Names a system, and a handle of it. Callers pick none: `System::run` does.
pub trait Place {
    ghost use Rattle.pass_names.specs.declared.PassId.{PassId};
    ghost use Rattle.hulayban.specs.Systems.{SystemOf};

    ghost system: { SystemOf };

    ghost name: { PassId };
}

impl Place for Brand {
    ghost use Rattle.pass_names.specs.Names.{first_pass_id};
    ghost use Rattle.hulayban.specs.Places.{no_system};

    ghost system = { no_system };

    ghost name = { first_pass_id };
}
