//! What the table keeps for a value.
ghost use Rattle.std.specs.Prelude.{◌≡◌, Some, None};

use std::marker::Model;

/// A value, where it is at home. The words behind it keep it off the line of the next one.
#[derive(Drop)]
pub struct ValueCell<O: Drop> {
    value: Option<O>,
    apart: [u64; 16],
}

impl<O: Drop> Model for ValueCell<O> {
    ghost use Rattle.std.specs.Prelude.{Option};

    ghost Value = { Option O };

    ghost view = { λ c. c.value };
}

impl<O: Drop> ValueCell<O> {
    /// A value at home.
    pub fn of(value: O) -> ValueCell<O>
        ensures { result ≡ Some value }
    {
        ValueCell {
            value: Some(value),
            apart: [0; 16],
        }
    }

    /// Takes the value out.
    pub fn take(&mut self) -> Option<O>
        ensures taken { result ≡ self.old }
        ensures left { self.new ≡ None }
    {
        self.value.take()
    }

    /// Puts a value in.
    pub fn put(&mut self, value: O)
        ensures { self.new ≡ Some value }
    {
        self.value = Some(value);
    }
}
