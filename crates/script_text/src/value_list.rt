//! What fills the fields of a line, as a list that mostly takes no memory.
ghost use Rattle.std.specs.Prelude.{◌≡◌, [], ◌∷◌, ◌++◌, OnOk, OnErr, IfOk};

use crate::form::Value;
use smallvec::SmallVec;
use std::alloc::{AllocError, Global};
use std::marker::Model;

/// A list of what fills fields. Eight of them, as many as any line has, take no memory.
#[derive(Drop)]
pub struct ValueList {
    items: SmallVec<Value, 8>,
}

impl Model for ValueList {
    ghost use Rattle.std.specs.Prelude.{List};
    ghost use Rattle.script_text.specs.declared.form.Value as filled;

    ghost Value = { List filled.Value };

    ghost view = { λ v. v.items.items };
}

impl ValueList {
    pub fn new(alloc: Global) -> Self
        ensures { result ≡ [] }
    {
        ValueList {
            items: SmallVec::new(alloc),
        }
    }

    pub fn push(&mut self, value: Value) -> Result<(), AllocError>
        ensures ok { OnOk result (self.new ≡ self.old ++ value ∷ []) }
        ensures err { OnErr result (self.new ≡ self.old) }
    {
        self.items.push(value)?;
        Ok(())
    }

    /// Takes all out.
    pub fn clear(&mut self)
        ensures { self.new ≡ [] }
    {
        self.items.clear();
    }

    pub fn as_slice(&self) -> &[Value]
        ensures { result.now ≡ self.now }
    {
        self.items.as_slice()
    }
}
