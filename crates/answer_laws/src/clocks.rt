//! Calls of a shared clock.
ghost use Rattle.std.specs.Prelude.{◌≡◌, Result};
ghost use Rattle.ktime.specs.Readings.{ClockReading};
ghost use Rattle.clock_cell.specs.Views.{AnswersWrite};
ghost use Rattle.clock_cell.specs.declared.view.ClockView.{ClockView};
ghost use Rattle.ktime.specs.declared.write.ClockFault.{ClockFault};
ghost use Rattle.ktime.specs.declared.write.Write.{Write};
ghost use Rattle.answer_laws.specs.Clocks.{write_moment};

/// After the same writes a write has one answer, which is an acceptance or a refusal for one cause, and the pass then knows the same.
pub fn a_write_is_fixed()
    ensures { (w : Write) (v n n' : ClockView) (r r' : Result ClockReading ClockFault) (a : AnswersWrite w v n r) (b : AnswersWrite w v n' r')
        → write_moment w v n r a ≡ write_moment w v n' r' b → (r ≡ r') × (n ≡ n') }
{}
