//! One high-resolution timer as a state and the events that step it: what each event needs, what it leaves and what it answers; its state word.
#![tactic(auto)]

pub use answer::{CancelAnswer, Finished, ForwardAnswer, Rearmed};
pub use base::Base;
pub use context::{Context, Declared, Terms, all_hard};
pub use effect::{Effect, QueueEffect, RunEffect};
pub use event::{Asked, AskedBy, Event, EventBy, Moved, Placement, Reply, Restarted};
pub use laws::{
    a_cancelled_generation_never_runs, a_move_keeps_the_expiry, a_span_has_one_generation,
    a_stamp_counts_entries, histories_end, running_is_told_inside_the_span, spans_do_not_overlap,
};
pub use observation::{Observation, Peek};
pub use standing::{BaseEvent, Standing};
pub use system::{
    BaseEntry, SystemEntry, TimerEntry, an_off_line_base_is_unused, bases_agree_with_timers,
    each_base_goes_by_turns, each_claim_is_in_turn, each_part_is_legal, no_expiry_is_missed,
    one_function_runs_on_a_base, stamps_count_entries, the_front_is_armed,
};
pub use timer_state::{TimerState, make_timers};
pub use word::{pack, read, unpack, word_of};
pub use word_laws::one_word_one_number;

mod answer;
mod base;
mod context;
mod effect;
mod event;
mod laws;
mod observation;
mod standing;
mod system;
mod timer_state;
mod word;
mod word_laws;
