//! What the lines of a script that were read so far make together.
ghost use Rattle.std.specs.Prelude.{◌≡◌, ◌≤◌, OnOk, IfOk};
ghost use Rattle.script_text.specs.Forms.{row};
ghost use Rattle.script_text.specs.Scripts.{most_calls};
ghost use Rattle.script_text.specs.Drafts.{AreShort, IsWithinLimits, empty, script_of, version_numbered, with_call, with_header, draft_with_line, with_round, with_timer};

use crate::form::{Form, Line, Part, Value};
use crate::reading::meaning::{call, declaration};
use crate::script::{Declaration, LaneCall, Round, Script};
use record_text::{ItemList, Version};
use std::alloc::{AllocError, Global};

/// What the lines so far have told: how many header lines there were and their numbers, the
/// version being 1 until its line is read; the declared timers, the rounds that have ended and the
/// calls of the one that has begun, and how many calls there were in all.
#[derive(Drop)]
pub struct Draft {
    pub headers: u64,
    pub version: Version,
    pub bases: u32,
    pub lanes: u32,
    pub limit: u64,
    pub timers: ItemList<Declaration>,
    pub ended: ItemList<Round>,
    pub begun: Option<ItemList<LaneCall>>,
    pub calls: u64,
}

impl Draft {
    /// Before the first line.
    pub fn new(alloc: Global) -> Self
        ensures { result ≡ empty }
    {
        Draft {
            headers: 0,
            version: Version::One,
            bases: 0,
            lanes: 0,
            limit: 0,
            timers: ItemList::new(alloc),
            ended: ItemList::new(alloc),
            begun: None,
            calls: 0,
        }
    }

    /// Adds what a line tells that was read and that no cause refuses.
    #[tactic(auto, unfolding(crate::specs::Drafts::draft_with_line, crate::specs::Drafts::with_part))]
    pub fn add(&mut self, alloc: Global, line: &Line) -> Result<(), AllocError>
        requires room { IsWithinLimits self.old }
        requires short { AreShort (row line.now.form) line.now.values }
        ensures { OnOk result (self.new ≡ draft_with_line self.old line.now) }
    {
        let form = line.form;
        let values = line.values.as_slice();
        match form.part() {
            Part::Header(_) => self.add_header(form, values),
            Part::Declaration => self.add_timer(declaration(form, values))?,
            Part::Round => self.add_round(alloc)?,
            Part::Call => self.add_call(call(form, values))?,
        }
        Ok(())
    }

    /// The script that the lines make.
    #[tactic(auto, unfolding(crate::specs::Drafts::script_of))]
    pub fn script(self) -> Result<Script, AllocError>
        ensures { IfOk result (λ s. s ≡ script_of self) }
    {
        let Draft {
            version,
            bases,
            lanes,
            limit,
            timers,
            ended: mut rounds,
            begun,
            ..
        } = self;
        if let Some(calls) = begun {
            rounds.push(Round { calls })?;
        }
        Ok(Script {
            version,
            bases,
            lanes,
            limit,
            timers,
            rounds,
        })
    }

    #[tactic(auto, unfolding(crate::specs::Drafts::with_header))]
    fn add_header(&mut self, form: Form, values: &[Value])
        requires few { self.old.headers ≤ 4 }
        requires short { AreShort (row form) values.now }
        ensures { self.new ≡ with_header self.old form values.now }
    {
        match (form, values) {
            (Form::Version, [Value::Number(n)]) => self.version = version_numbered(*n),
            (Form::Bases, [Value::Number(n)]) => self.bases = *n as u32,
            (Form::Lanes, [Value::Number(n)]) => self.lanes = *n as u32,
            (Form::Limit, [Value::Number(n)]) => self.limit = *n,
            _ => {}
        }
        self.headers += 1;
    }

    #[tactic(auto, unfolding(crate::specs::Drafts::with_timer))]
    fn add_timer(&mut self, declared: Option<Declaration>) -> Result<(), AllocError>
        ensures { OnOk result (self.new ≡ with_timer self.old declared) }
    {
        if let Some(declared) = declared {
            self.timers.push(declared)?;
        }
        Ok(())
    }

    #[tactic(auto, unfolding(crate::specs::Drafts::with_round))]
    fn add_round(&mut self, alloc: Global) -> Result<(), AllocError>
        ensures { OnOk result (self.new ≡ with_round self.old) }
    {
        if let Some(calls) = self.begun.replace(ItemList::new(alloc)) {
            self.ended.push(Round { calls })?;
        }
        Ok(())
    }

    #[tactic(auto, unfolding(crate::specs::Drafts::with_call))]
    fn add_call(&mut self, call: Option<LaneCall>) -> Result<(), AllocError>
        requires { self.old.calls ≤ most_calls }
        ensures { OnOk result (self.new ≡ with_call self.old call) }
    {
        let Some(call) = call else {
            return Ok(());
        };
        if let Some(calls) = &mut self.begun {
            calls.push(call)?;
        }
        self.calls += 1;
        Ok(())
    }
}

/// The version of this number; the first where there is none.
fn version_numbered(n: u64) -> Version
    ensures { result ≡ version_numbered n }
{
    if n == 2 {
        return Version::Two;
    }
    Version::One
}
