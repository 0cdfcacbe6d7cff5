//! Each call's clause fixes its answer and what it leaves, given the moment of the call: laws with no code, one for each clause that is a relation. And all
//! calls of a system's handles stand in one history.
#![tactic(auto)]

mod bases;
mod clocks;
mod expiries;
mod handlers;
mod handoffs;
mod lives;
mod objects;
mod rows;
mod signals;
mod timers;
mod tries;

pub use bases::{
    a_front_is_fixed, a_locked_base_is_fixed, a_look_at_bases_is_fixed,
    a_rise_of_a_counter_is_fixed, an_entry_on_a_base_is_fixed,
};
pub use clocks::a_write_is_fixed;
pub use expiries::an_expiry_run_is_fixed;
pub use handlers::{a_callback_is_fixed, a_queued_expiry_is_fixed, a_trigger_is_fixed};
pub use handoffs::a_seat_is_fixed;
pub use lives::{
    a_call_stands_in_the_one_history, all_calls_stand_in_one_history,
    an_expiry_run_stands_in_the_one_history,
};
pub use objects::{
    a_gettime_is_fixed, a_look_at_an_object_is_fixed, a_next_signal_is_fixed, a_read_is_fixed,
    a_settime_is_fixed, a_sleep_is_fixed, an_accept_is_fixed, an_interrupt_is_fixed,
};
pub use rows::{
    a_locked_value_is_fixed, a_state_is_fixed, what_calls_on_a_row_leave_is_fixed,
    what_passes_tell_is_fixed,
};
pub use signals::{a_pop_is_fixed, a_push_is_fixed};
pub use timers::{
    a_cancel_behind_a_rise_is_fixed, a_cancel_is_fixed, a_cancel_now_is_fixed, a_claim_is_fixed,
    a_finish_is_fixed, a_forward_is_fixed, a_peek_is_fixed, a_start_is_fixed,
    a_start_of_a_running_timer_is_fixed, a_start_while_bases_stay_is_fixed,
    taking_a_base_off_line_is_fixed, taking_a_base_on_line_is_fixed,
    what_passes_of_timers_tell_is_fixed,
};
pub use tries::{
    a_look_at_a_queue_is_fixed, a_miss_is_fixed, a_send_is_fixed, a_start_here_is_fixed,
    an_arrival_is_fixed,
};
