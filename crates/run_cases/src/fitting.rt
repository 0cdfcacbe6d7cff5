//! Records that fit their scripts.
ghost use Rattle.run_history.specs.Fits.{Fits};
ghost use Rattle.run_cases.specs.BesideRuns as beside;
ghost use Rattle.run_cases.specs.Fitting as fitting;
ghost use Rattle.run_cases.specs.FullQueue as full;

/// A timer is started, expires, is cancelled when it is idle, and is looked at.
#[tactic(auto, using(crate::proofs::FittingRecords::idle_fits))]
pub fn an_expiry_and_an_idle_cancel()
    ensures { Fits fitting.idle_script fitting.idle_record }
{}

/// A callback is told that its own timer runs.
#[tactic(auto, using(crate::proofs::FittingRecords::told_fits))]
pub fn a_callback_is_told_that_it_runs()
    ensures { Fits fitting.told_script fitting.told_record }
{}

/// A callback starts its own timer while it runs, and a later start moves the timer to another base.
#[tactic(auto, using(crate::proofs::FittingRecords::moved_fits))]
pub fn a_start_while_running_and_one_to_another_base()
    ensures { Fits fitting.moved_script fitting.moved_record }
{}

/// A lane cancels a timer beside another lane's expiry run: before it, while the function runs, or when it has run.
#[tactic(auto, using(crate::proofs::FittingRecords::cancelled_fits, crate::proofs::FittingRecords::running_fits, crate::proofs::FittingRecords::late_fits))]
pub fn a_cancel_beside_an_expiry()
    ensures cancelled { Fits fitting.beside_script fitting.cancelled_record }
    ensures running { Fits fitting.beside_script fitting.running_record }
    ensures idle { Fits fitting.beside_script fitting.late_record }
{}

/// A lane looks at a timer beside another lane. Then it writes the clock, and the other lane's run claims the timer by that write; it writes the clock behind
/// the other lane's start; or it has nothing to expire yet, as the other lane writes the clock and starts the timer behind that.
#[tactic(auto, using(crate::proofs::LooksAndWrites::awaited_fits, crate::proofs::LooksAndWrites::started_fits, crate::proofs::LooksAndWrites::nothing_fits))]
pub fn a_look_and_a_write_beside_another_lane()
    ensures claimed { Fits fitting.awaited_script fitting.awaited_record }
    ensures started { Fits fitting.started_script fitting.started_record }
    ensures nothing { Fits fitting.nothing_script fitting.nothing_record }
{}

/// A POSIX timer is set, expires, and has its signal accepted, which arms it again; a second acceptance finds none.
#[tactic(auto, using(crate::proofs::FittingRecords::accepted_fits))]
pub fn an_accepted_signal_arms_a_timer_again()
    ensures { Fits fitting.accepted_script fitting.accepted_record }
{}

/// A lane looks at an object beside another lane's calls: it finds a descriptor unreadable before an expiry that it hasn't seen; of two lanes that each set
/// their own the one that comes first doesn't see the other's entry; and an object is armed where its timer is started.
#[tactic(auto, using(crate::proofs::ObjectsFitting::unreadable_fits, crate::proofs::ObjectsFitting::seen_fits, crate::proofs::ObjectsFitting::armed_fits))]
pub fn a_look_at_an_object_beside_another_lane()
    ensures unreadable { Fits fitting.unreadable_script fitting.unreadable_record }
    ensures first { Fits fitting.seen_script fitting.seen_record }
    ensures armed { Fits fitting.armed_script fitting.armed_record }
{}

/// A lane sees a timer started by another lane's settime, and then its object as that settime set it.
#[tactic(auto, using(crate::proofs::ObjectsFitting::set_fits))]
pub fn a_look_at_an_object_behind_its_timers_start()
    ensures { Fits fitting.set_script fitting.set_record }
{}

/// Two lanes accept of two POSIX timers, and one of them comes first on both.
#[tactic(auto, using(crate::proofs::ObjectsFitting::accepts_fit))]
pub fn two_lanes_accept_of_two_timers()
    ensures { Fits fitting.accepts_script fitting.accepts_record }
{}

/// An expiry is skipped, as another lane's acceptance has filled the object's history.
#[tactic(auto, using(crate::proofs::ObjectsFitting::skipped_fits))]
pub fn a_full_object_skips_an_expiry()
    ensures { Fits fitting.skipped_script fitting.skipped_record }
{}

/// A lane sees a timer's function run a second time, and its read finds no expiry: it stands behind the second settime, before the second expiry's entry.
#[tactic(auto, using(crate::proofs::ObjectsFitting::two_expiries_fit))]
pub fn a_read_between_two_expiries()
    ensures { Fits fitting.two_expiries_script fitting.two_expiries_record }
{}

/// A read is canceled by another lane's set of the clock.
#[tactic(auto, using(crate::proofs::ObjectsFitting::canceled_fits))]
pub fn a_set_clock_cancels_a_read()
    ensures { Fits fitting.canceled_script fitting.canceled_record }
{}

/// A start that the limit refuses is told with the settime's own cancel among the timer's entries.
#[tactic(auto, using(crate::proofs::RefusedStart::full_fits))]
pub fn a_settime_cancels_a_timer_and_cannot_start_it()
    ensures { Fits fitting.full_script fitting.full_record }
{}

/// A settime waits for its timer's function, beside another lane's expiry run. Then its start is refused, and it tells of the timer as it was found idle.
#[tactic(auto, using(crate::proofs::RefusedStart::ended_fits))]
pub fn a_settime_waits_for_a_function_and_cannot_start_its_timer()
    ensures { Fits fitting.ended_script fitting.ended_record }
{}

/// A timer with slack expires when its soft expiry is reached and its hard one isn't.
#[tactic(auto, using(crate::proofs::VersionTwo::early_fits))]
pub fn a_soft_expiry_is_enough()
    ensures { Fits fitting.early_script fitting.early_record }
{}

/// An expiry run ends with nothing left to do though a timer is due by its soft expiry, as the one with the earliest hard expiry isn't.
#[tactic(auto, using(crate::proofs::VersionTwo::waiting_fits))]
pub fn a_due_timer_waits_behind_an_earlier_one()
    ensures { Fits fitting.waiting_script fitting.waiting_record }
{}

/// A hard and a soft expiry run on one base each fire the timer of their context.
#[tactic(auto, using(crate::proofs::VersionTwo::contexts_fit))]
pub fn each_expiry_run_fires_its_own_timer()
    ensures { Fits fitting.contexts_script fitting.contexts_record }
{}

/// A base is taken off line, which moves its timer to the heir; a start that asks for the base goes to the heir; then the base is on line again.
#[tactic(auto, using(crate::proofs::OffLine::heir_fits))]
pub fn a_start_goes_to_the_heir()
    ensures { Fits fitting.heir_script fitting.heir_record }
{}

/// A callback's start asks for the heir of a base that is off line; the timer stays on the base where its function runs.
#[tactic(auto, using(crate::proofs::AskedOff::asking_fits))]
pub fn a_callbacks_start_asks_for_the_heir()
    ensures { Fits fitting.asking_script fitting.asking_record }
{}

/// The same, while another lane's run goes on: its callback's claim stands behind the base that goes off line.
#[tactic(auto, using(crate::proofs::ClaimedFirst::meanwhile_fits))]
pub fn a_callback_asks_for_an_heir_of_its_own_run()
    ensures { Fits fitting.meanwhile_script fitting.meanwhile_record }
{}

/// A base goes off line and on line again, and another lane's start sends its timer there.
#[tactic(auto, using(crate::proofs::SentTwice::again_fits))]
pub fn a_start_goes_to_a_base_that_is_on_line_again()
    ensures { Fits fitting.again_script fitting.again_record }
{}

/// A base goes off line, and then another lane sets an object: its timer goes to the heir.
#[tactic(auto, using(crate::proofs::TurnFirst::turning_fits))]
pub fn a_settime_goes_to_the_heir()
    ensures { Fits fitting.turning_script fitting.turning_record }
{}

/// A base isn't taken off line with an heir that is off line.
#[tactic(auto, using(crate::proofs::RefusedHeir::refused_fits))]
pub fn an_heir_off_line_is_refused()
    ensures { Fits fitting.refused_script fitting.refused_record }
{}

/// A base has a soft timer that is due and a hard one. A call moves the hard one off it; then the soft one's function runs there, and the base stays on line.
#[tactic(auto, using(crate::proofs::BusyBase::busy_fits))]
pub fn a_base_stays_on_line_while_a_function_runs_there()
    ensures { Fits fitting.busy_script fitting.busy_record }
{}

/// A sleep's time comes: it is looked at, and an interrupt tells it.
#[tactic(auto, using(crate::proofs::Sleepers::woken_fits))]
pub fn a_sleep_is_over_when_its_time_has_come()
    ensures { Fits fitting.woken_script fitting.woken_record }
{}

/// A sleep for so long tells the time left when it is interrupted, one up to a time doesn't, and one up to a time that has come isn't begun.
#[tactic(auto, using(crate::proofs::Sleepers::interrupted_fits))]
pub fn an_interrupted_sleep_tells_the_time_left()
    ensures { Fits fitting.interrupted_script fitting.interrupted_record }
{}

/// Two queued timers expire in one run, and the first one's signal is stale since the timer was set anew; the other's is accepted, and then none waits.
#[tactic(auto, using(crate::proofs::SignalsFitting::signals_fit))]
pub fn two_signals_wait_in_turn_and_one_is_stale()
    ensures { Fits fitting.signals_script fitting.signals_record }
{}

/// A queued timer's history gets full as its signal goes stale: who takes the signal is told that it is full.
#[tactic(auto, using(crate::proofs::SignalsFitting::filled_fits))]
pub fn a_signal_that_goes_stale_as_its_timer_gets_full_is_spent()
    ensures { Fits fitting.filled_script fitting.filled_record }
{}

/// A queued timer's history is full when its signal is taken: the call is told so.
#[tactic(auto, using(crate::proofs::SignalsFitting::spent_fits))]
pub fn a_signal_of_a_full_timer_is_spent()
    ensures { Fits fitting.spent_script fitting.spent_record }
{}

/// A lane looks at a queued timer beside the run by which it expires, before the expiry, and then finds no signal.
#[tactic(auto, using(crate::proofs::BesideRuns::early_wait_fits))]
pub fn a_wait_before_an_expiry_finds_no_signal()
    ensures { Fits beside.early_wait_script beside.early_wait_record }
{}

/// A queued timer expires in one lane's run, and behind that another one in another lane's. Their signals are taken in that order.
#[tactic(auto, using(crate::proofs::BesideRuns::two_runs_fit))]
pub fn signals_of_two_runs_are_taken_in_the_order_of_the_expiries()
    ensures { Fits beside.two_runs_script beside.two_runs_record }
{}

/// Of two signals that wait a lane takes the older one, and then another lane the younger one.
#[tactic(auto, using(crate::proofs::BesideRuns::two_waits_fit))]
pub fn two_lanes_take_two_signals()
    ensures { Fits beside.two_waits_script beside.two_waits_record }
{}

/// A queued timer expires, is set anew by another lane, and expires again. Its first signal is taken first, and is stale.
#[tactic(auto, using(crate::proofs::BesideRuns::set_again_fits))]
pub fn two_signals_of_one_timer_are_taken_in_turn()
    ensures { Fits beside.set_again_script beside.set_again_record }
{}

/// A queued timer is set anew and expires, 65 times, and no signal is taken: the last expiry finds no room. Then the first signal is taken, and is stale.
#[tactic(auto, using(crate::proofs::FullQueueFits::full_queue_fits))]
pub fn the_65th_signal_finds_no_room()
    ensures { Fits full.full_queue_script full.full_queue_record }
{}
