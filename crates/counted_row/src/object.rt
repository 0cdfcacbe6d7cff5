//! What a value of a row is: a state with calls that have one order.
ghost use Rattle.std.specs.Prelude.{◌≡◌};
ghost use Rattle.counted_row.specs.Meaning.{CallMeaning, Counts};

/// A value with calls that have one order.
pub trait Object: Drop {
    type Call: Drop;

    type Reply;

    // Which calls may be made, what each gives, and which claims each opens, uses or ends.
    ghost meaning: { CallMeaning Self Self.Call Self.Reply };

    /// Makes one call.
    fn apply(&mut self, call: &Self::Call) -> Self::Reply
        requires { meaning.may self.old call.now }
        ensures state { self.new ≡ meaning.next self.old call.now }
        ensures reply { result ≡ meaning.reply self.old call.now };

    /// Shows that a call opens and ends the claims that its effect says, and no others. It does nothing.
    fn counts()
        ensures counts { Counts meaning };
}
