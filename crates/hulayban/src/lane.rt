//! What a thread does.
use crate::place::Place;
use crate::session::Session;
use std::alloc::AllocError;
use std::sync::Wait;

/// How a lane ends.
pub type Done = Result<(), AllocError>;

/// What a thread does by a session. It says for which systems it is, and may say what it did.
pub trait Lane {
    ghost use Rattle.hulayban.specs.Lanes.{LaneEnd};
    ghost use Rattle.hulayban.specs.Systems.{HandleOf, SystemOf};

    /// For which systems it is.
    ghost suits: { SystemOf → Type 0 };

    /// What it did of a system, by itself before and after, its handle before and after, and how it ended. By default it says nothing.
    ghost did: { SystemOf → Self → Self → HandleOf → HandleOf → LaneEnd → Type 0 } = { λ x old new v w done. Unit {0} };

    fn run<R: Wait, P: Place>(&mut self, rt: &R, me: &mut Session<'_, P>) -> Done
        requires suits { suits P.system }
        ensures did { did P.system self.old self.new me.old me.new result };
}
