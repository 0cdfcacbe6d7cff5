//! Records that don't fit their scripts.
ghost use Rattle.run_history.specs.Fits.{Fits};
ghost use Rattle.run_cases.specs.BesideRuns as beside;
ghost use Rattle.run_cases.specs.Fitting as fitting;
ghost use Rattle.run_cases.specs.FullQueue as full;
ghost use Rattle.run_cases.specs.Wrong as wrong;

/// No two functions of one context run at once on a base: one lane is told, before and behind its own claim there, that another's timer runs.
#[tactic(auto, using(crate::proofs::WrongRecords::both_dont_fit))]
pub fn two_functions_never_run_at_once_on_a_base()
    ensures { Fits wrong.both_script wrong.both_record → ⊥ }
{}

/// Of two timers with the same expiry the one that was armed later isn't claimed first.
#[tactic(auto, using(crate::proofs::WrongRecords::tie_doesnt_fit))]
pub fn equal_expiries_are_claimed_in_turn()
    ensures { Fits wrong.tie_script wrong.tie_record → ⊥ }
{}

/// An expiry run doesn't have nothing left to do while at each moment one timer's expiry or another's is reached.
#[tactic(auto, using(crate::proofs::WrongRecords::due_doesnt_fit))]
pub fn an_expiry_run_is_done_at_one_moment()
    ensures { Fits wrong.due_script wrong.due_record → ⊥ }
{}

/// A function doesn't run before the write that makes its timer due: a lane doesn't see it run and then make that write.
#[tactic(auto, using(crate::proofs::Readings::hasty_doesnt_fit))]
pub fn no_function_runs_before_the_write_that_makes_it_due()
    ensures { Fits fitting.awaited_script wrong.hasty_record → ⊥ }
{}

/// A start doesn't go by a later write: a lane doesn't see the timer started and then make that write.
#[tactic(auto, using(crate::proofs::Readings::foreseen_doesnt_fit))]
pub fn no_start_goes_by_a_later_write()
    ensures { Fits fitting.started_script wrong.foreseen_record → ⊥ }
{}

/// An expiry run isn't done by the reading before a write, when its lane has seen a timer that was started behind the write, and is due by it.
#[tactic(auto, using(crate::proofs::Readings::stale_doesnt_fit))]
pub fn no_run_is_done_by_an_old_reading()
    ensures { Fits fitting.nothing_script wrong.stale_record → ⊥ }
{}

/// A settime of an armed POSIX timer doesn't leave its cancel out.
#[tactic(auto, using(crate::proofs::ObjectsWrong::uncancelled_doesnt_fit))]
pub fn a_settime_cancels_first()
    ensures { Fits wrong.uncancelled_script wrong.uncancelled_record → ⊥ }
{}

/// An object's entries stand in the order of its timer's: those of a settime and of an expiry, and those of two settimes.
#[tactic(auto, using(crate::proofs::ObjectsWrong::crossed_doesnt_fit, crate::proofs::ObjectsWrong::settimes_dont_fit))]
pub fn entries_of_objects_and_timers_dont_cross()
    ensures expiry { Fits wrong.crossed_script wrong.crossed_record → ⊥ }
    ensures settimes { Fits wrong.settimes_script wrong.settimes_record → ⊥ }
{}

/// A look at an object doesn't miss an expiry whose function its lane has seen to end.
#[tactic(auto, using(crate::proofs::ObjectsWrong::missed_expiry_doesnt_fit))]
pub fn no_look_misses_an_expiry_that_was_over()
    ensures { Fits fitting.unreadable_script wrong.missed_expiry_record → ⊥ }
{}

/// A read doesn't stand before the first of two expiries, when its lane has seen the function of the second.
#[tactic(auto, using(crate::proofs::ObjectsWrong::early_read_doesnt_fit))]
pub fn no_read_misses_the_first_of_two_expiries()
    ensures { Fits fitting.two_expiries_script wrong.early_read_record → ⊥ }
{}

/// Of two lanes that each make an entry of one object and then look at the other's, not both see none.
#[tactic(auto, using(crate::proofs::ObjectsWrong::unseen_doesnt_fit))]
pub fn two_lanes_dont_both_come_first()
    ensures { Fits fitting.seen_script wrong.unseen_record → ⊥ }
{}

/// The entries that two lanes make of two objects don't cross: no lane comes second on that object where it came first.
#[tactic(auto, using(crate::proofs::ObjectsWrong::crossed_accepts_dont_fit))]
pub fn entries_of_two_objects_dont_cross()
    ensures { Fits fitting.accepts_script wrong.crossed_accepts_record → ⊥ }
{}

/// An expiry isn't skipped before its object's history is full: a lane doesn't see its function end and then make the entry that fills the history.
#[tactic(auto, using(crate::proofs::ObjectsWrong::hasty_skip_doesnt_fit))]
pub fn no_expiry_is_skipped_before_its_object_is_full()
    ensures { Fits fitting.skipped_script wrong.hasty_skip_record → ⊥ }
{}

/// A read isn't canceled by a set of the clock that came later: a lane doesn't see the read's entry and then make that set.
#[tactic(auto, using(crate::proofs::ObjectsWrong::foreseen_set_doesnt_fit))]
pub fn no_read_is_canceled_by_a_later_set()
    ensures { Fits fitting.canceled_script wrong.foreseen_set_record → ⊥ }
{}

/// An object isn't armed before its timer is started: a lane doesn't see it armed and then the timer without that start.
#[tactic(auto, using(crate::proofs::ObjectsWrong::unstarted_doesnt_fit))]
pub fn no_object_is_armed_before_its_timers_start()
    ensures { Fits fitting.armed_script wrong.unstarted_record → ⊥ }
{}

/// A look at an object doesn't miss a settime whose start its lane saw: no lane sees the object as it was before, within that settime's turn.
#[tactic(auto, using(crate::proofs::ObjectsWrong::unset_doesnt_fit))]
pub fn no_look_misses_a_settime_whose_start_its_lane_saw()
    ensures { Fits fitting.set_script wrong.unset_record → ⊥ }
{}

/// A start isn't refused by its timer as it was before the settime's own cancel.
#[tactic(auto, using(crate::proofs::RefusedStart::early_refusal_doesnt_fit))]
pub fn a_refused_start_is_told_behind_its_cancel()
    ensures { Fits fitting.full_script wrong.early_refusal_record → ⊥ }
{}

/// A start isn't refused by its timer as it was while its function still ran: its settime waits until that has ended.
#[tactic(auto, using(crate::proofs::RefusedStart::running_refusal_doesnt_fit))]
pub fn a_refused_start_is_told_behind_its_timers_function()
    ensures { Fits fitting.ended_script wrong.running_refusal_record → ⊥ }
{}

/// A timer isn't claimed before its soft expiry.
#[tactic(auto, using(crate::proofs::WrongRecords::soon_doesnt_fit))]
pub fn no_timer_expires_before_its_soft_expiry()
    ensures { Fits wrong.soon_script wrong.soon_record → ⊥ }
{}

/// A claim doesn't look past the timer with the earliest hard expiry, while its soft one isn't reached.
#[tactic(auto, using(crate::proofs::WrongRecords::past_doesnt_fit))]
pub fn no_claim_looks_past_the_first_timer()
    ensures { Fits fitting.waiting_script wrong.past_record → ⊥ }
{}

/// An expiry run doesn't have nothing left to do while a timer's hard expiry is reached.
#[tactic(auto, using(crate::proofs::WrongRecords::missed_doesnt_fit))]
pub fn no_hard_expiry_is_missed()
    ensures { Fits wrong.missed_script wrong.missed_record → ⊥ }
{}

/// A hard expiry run doesn't claim a timer of the soft context.
#[tactic(auto, using(crate::proofs::WrongRecords::astray_doesnt_fit))]
pub fn a_hard_run_claims_no_soft_timer()
    ensures { Fits wrong.astray_script wrong.astray_record → ⊥ }
{}

/// A record isn't of another version than its script.
#[tactic(auto, using(crate::proofs::WrongRecords::versions_dont_fit))]
pub fn a_record_is_of_its_scripts_version()
    ensures { Fits wrong.versions_script wrong.versions_record → ⊥ }
{}

/// A start doesn't leave its timer on a base that is off line.
#[tactic(auto, using(crate::proofs::OffLine::stranded_doesnt_fit))]
pub fn no_start_ends_on_a_base_off_line()
    ensures { Fits wrong.stranded_script wrong.stranded_record → ⊥ }
{}

/// A start doesn't send its timer to a base that is off line: where that is so from before the call on, it goes to the heir at once.
#[tactic(auto, using(crate::proofs::SentOff::sent_off_doesnt_fit))]
pub fn no_start_is_sent_to_a_base_off_line()
    ensures { Fits wrong.stranded_script wrong.sent_off_record → ⊥ }
{}

/// An armed timer doesn't leave for its base's heir before the base goes off line.
#[tactic(auto, using(crate::proofs::SentOff::left_early_doesnt_fit))]
pub fn no_timer_leaves_for_an_heir_of_a_base_on_line()
    ensures { Fits wrong.left_early_script wrong.left_early_record → ⊥ }
{}

/// A callback's start doesn't tell that it asked for a base that is off line since before its run.
#[tactic(auto, using(crate::proofs::AskedOff::asking_off_doesnt_fit))]
pub fn no_callback_asks_for_a_base_off_line()
    ensures { Fits fitting.asking_script wrong.asking_off_record → ⊥ }
{}

/// A callback's start doesn't tell that it asked for a base that went off line within its run's call, but before the callback's own claim.
#[tactic(auto, using(crate::proofs::ClaimedFirst::meanwhile_off_doesnt_fit))]
pub fn no_callback_asks_for_a_base_off_line_at_its_claim()
    ensures { Fits fitting.meanwhile_script wrong.meanwhile_off_record → ⊥ }
{}

/// A start doesn't send its timer on from a base that is on line, though that was off line while the start went on, before the timer left for it.
#[tactic(auto, using(crate::proofs::SentTwice::sent_again_doesnt_fit))]
pub fn no_timer_is_sent_on_from_a_base_on_line()
    ensures { Fits fitting.again_script wrong.sent_again_record → ⊥ }
{}

/// A settime doesn't send its timer to a base that went off line within its call, but before its turn of the object.
#[tactic(auto, using(crate::proofs::TurnFirst::turning_off_doesnt_fit))]
pub fn no_settime_sends_to_a_base_off_line_at_its_turn()
    ensures { Fits fitting.turning_script wrong.turning_off_record → ⊥ }
{}

/// A base doesn't go off line with a timer armed on it.
#[tactic(auto, using(crate::proofs::OffLine::left_doesnt_fit))]
pub fn a_base_goes_off_line_empty()
    ensures { Fits wrong.left_script wrong.left_record → ⊥ }
{}

/// A timer that is moved off a base keeps its expiry.
#[tactic(auto, using(crate::proofs::OffLine::early_move_doesnt_fit))]
pub fn a_moved_timer_keeps_its_expiry()
    ensures { Fits wrong.left_script wrong.early_move_record → ⊥ }
{}

/// The timers of a base that goes off line are moved in the order of their expiries.
#[tactic(auto, using(crate::proofs::MovedInTurn::turns_dont_fit))]
pub fn timers_are_moved_in_turn()
    ensures { Fits wrong.turns_script wrong.turns_record → ⊥ }
{}

/// A timer isn't moved off a base while a function runs there: the lane whose call moves it saw the function run before, and is told that it still runs.
#[tactic(auto, using(crate::proofs::BusyBase::running_moved_doesnt_fit))]
pub fn no_timer_is_moved_while_a_function_runs()
    ensures { Fits fitting.busy_script wrong.running_moved_record → ⊥ }
{}

/// A base doesn't go off line with an heir that was off line when the call began.
#[tactic(auto, using(crate::proofs::RefusedHeir::taken_doesnt_fit))]
pub fn no_base_goes_off_line_to_an_heir_off_line()
    ensures { Fits fitting.refused_script wrong.taken_record → ⊥ }
{}

/// A base isn't on line again without an entry that says so.
#[tactic(auto, using(crate::proofs::OffLine::silent_doesnt_fit))]
pub fn a_base_comes_on_line_by_an_entry()
    ensures { Fits wrong.silent_script wrong.silent_record → ⊥ }
{}

/// A sleep up to a time that is interrupted tells no time left.
#[tactic(auto, using(crate::proofs::Sleepers::time_left_doesnt_fit))]
pub fn no_time_left_of_a_sleep_up_to_a_time()
    ensures { Fits fitting.interrupted_script wrong.time_left_record → ⊥ }
{}

/// A sleep isn't over before its time.
#[tactic(auto, using(crate::proofs::Sleepers::early_sleep_doesnt_fit))]
pub fn no_sleep_is_over_before_its_time()
    ensures { Fits wrong.early_sleep_script wrong.early_sleep_record → ⊥ }
{}

/// No call is told that no signal waits while one does.
#[tactic(auto, using(crate::proofs::SignalsWrong::unheard_doesnt_fit))]
pub fn no_queue_is_found_empty_while_a_signal_waits()
    ensures { Fits wrong.unheard_script wrong.unheard_record → ⊥ }
{}

/// No signal is named by two answers.
#[tactic(auto, using(crate::proofs::SignalsWrong::renamed_doesnt_fit))]
pub fn no_signal_is_named_twice()
    ensures { Fits wrong.renamed_script wrong.renamed_record → ⊥ }
{}

/// Of two signals that were sent one after the other the younger one isn't named first.
#[tactic(auto, using(crate::proofs::SignalsWrong::younger_doesnt_fit))]
pub fn no_younger_signal_is_named_first()
    ensures { Fits wrong.younger_script wrong.younger_record → ⊥ }
{}

/// Of two signals of one expiry run the one whose timer was claimed second isn't named first.
#[tactic(auto, using(crate::proofs::SignalsOfRuns::swapped_doesnt_fit))]
pub fn signals_of_a_run_are_named_in_the_order_of_its_claims()
    ensures { Fits fitting.signals_script wrong.swapped_record → ⊥ }
{}

/// No expiry finds the queue of signals full while it has room: a call was told that none waits, and none was sent since.
#[tactic(auto, using(crate::proofs::SignalsWrong::roomy_doesnt_fit))]
pub fn no_queue_is_found_full_while_it_has_room()
    ensures { Fits wrong.roomy_script wrong.roomy_record → ⊥ }
{}

/// No signal is told as stale that is pending from when it was sent, even beside the expiry run that sends it.
#[tactic(auto, using(crate::proofs::SignalsWrong::pending_doesnt_fit))]
pub fn no_signal_is_stale_that_stays_pending()
    ensures { Fits wrong.pending_script wrong.pending_record → ⊥ }
{}

/// No signal is told as stale that was pending at each moment at which its timer's history had it and had room.
#[tactic(auto, using(crate::proofs::SignalsWrong::roomless_doesnt_fit))]
pub fn no_signal_is_stale_that_was_pending_while_there_was_room()
    ensures { Fits fitting.filled_script wrong.roomless_record → ⊥ }
{}

/// No signal is sent while as many wait as may: an expiry then finds no room.
#[tactic(auto, using(crate::proofs::OverfullQueue::overfull_doesnt_fit))]
pub fn no_signal_is_sent_where_as_many_wait_as_may()
    ensures { Fits full.full_queue_script full.overfull_queue_record → ⊥ }
{}

/// No signal is accepted whose timer was set anew since, though the timer has expired again and that signal is pending.
#[tactic(auto, using(crate::proofs::SignalsWrong::outdated_doesnt_fit))]
pub fn no_signal_is_accepted_whose_timer_was_set_since()
    ensures { Fits wrong.outdated_script wrong.outdated_record → ⊥ }
{}

/// No lane is told that no signal waits when it has seen an expiry that sent one, and nobody has taken that.
#[tactic(auto, using(crate::proofs::BesideRunsWrong::late_wait_doesnt_fit))]
pub fn no_queue_is_found_empty_behind_an_expiry_that_was_seen()
    ensures { Fits beside.early_wait_script beside.late_wait_record → ⊥ }
{}

/// Of two signals of two lanes' runs the one isn't taken first whose lane had seen the other's expiry.
#[tactic(auto, using(crate::proofs::BesideRunsWrong::seen_older_doesnt_fit))]
pub fn no_signal_is_taken_before_one_whose_expiry_was_seen()
    ensures { Fits beside.two_runs_script beside.seen_older_record → ⊥ }
{}

/// No lane takes the older of two signals when it has seen the younger one accepted.
#[tactic(auto, using(crate::proofs::BesideRunsWrong::crossed_waits_dont_fit))]
pub fn no_older_signal_is_taken_behind_a_younger_one_that_was_accepted()
    ensures { Fits beside.two_waits_script beside.crossed_waits_record → ⊥ }
{}

/// Of two signals of one timer the younger isn't taken first, whichever lanes' runs sent them.
#[tactic(auto, using(crate::proofs::BesideRunsWrong::turned_round_doesnt_fit))]
pub fn signals_of_one_timer_are_taken_in_its_order()
    ensures { Fits beside.set_again_script beside.turned_round_record → ⊥ }
{}

/// No lane whose expiry found no room is told behind that that no signal waits, where nobody has taken one.
#[tactic(auto, using(crate::proofs::CrowdsWrong::full_then_empty_doesnt_fit))]
pub fn no_full_queue_is_found_empty_next()
    ensures { Fits beside.full_then_empty_script beside.full_then_empty_record → ⊥ }
{}

/// No expiry counts while as many signals wait as may, where one is taken only by a lane that has seen that expiry.
#[tactic(auto, using(crate::proofs::CrowdsWrong::room_too_late_doesnt_fit))]
pub fn no_room_is_made_by_a_later_wait()
    ensures { Fits beside.room_too_late_script beside.room_too_late_record → ⊥ }
{}

/// No expiry finds the queue full by what its own run pushes later.
#[tactic(auto, using(crate::proofs::CrowdsWrong::later_pushes_dont_fit))]
pub fn no_queue_is_found_full_by_later_pushes()
    ensures { Fits beside.later_pushes_script beside.later_pushes_record → ⊥ }
{}
