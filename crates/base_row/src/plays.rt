//! The rule of the table, and what each step on it tells.
use crate::cell::BaseCell;
use crate::slot::BaseSlot;
use crate::view::BaseView;
use atomic_table::{Join, Play, Split, TableRule};
use seq_timer::{Event, TimerState};
use std::marker::{Brand, PhantomData};
use std::snapshot::Snapshot;

pub type SlotView = BaseView<BaseSlot>;

/// What a table is made for.
#[derive(Drop)]
pub struct About {
    pub bases: u64,
    pub timers: Snapshot<Vec<TimerState>>,
    pub counters: u64,
    pub rings: Snapshot<Vec<u64>>,
}

pub struct BaseRule;

impl TableRule<BaseCell, SlotView, About> for BaseRule {
    ghost use Rattle.base_row.specs.Rules.{HasOneHistory, opening_in};
    ghost use Rattle.base_row.specs.Plays.{first_base_view};

    ghost holds = { λ k s. HasOneHistory (opening_in k) s };

    ghost first = { λ k. first_base_view (opening_in k) };
}

/// Which event an entry has. Each entry picks it.
pub trait EventPick {
    ghost use Rattle.seq_timer.specs.Events.{Event};

    ghost event: { Event };
}

impl EventPick for Brand {
    ghost use Rattle.seq_timer.specs.declared.event.EventBy.TheVariants.{Cancel};

    ghost event = { Cancel };
}

/// The store of a timer's word.
pub struct Enter<K: EventPick> {
    of: PhantomData<K>,
}

impl<K: EventPick> Play<BaseCell, SlotView> for Enter<K> {
    ghost use Rattle.base_row.specs.Plays.{EntersBy};

    ghost then = { λ st m stored w. EntersBy K.event st m w };
}

/// Which event an entry of a base has. Each such entry picks it.
pub trait BaseEventPick {
    ghost use Rattle.seq_timer.specs.declared.standing.BaseEvent.{BaseEvent};

    ghost event: { BaseEvent };
}

impl BaseEventPick for Brand {
    ghost use Rattle.seq_timer.specs.declared.standing.BaseEvent.TheVariants.{Online};

    ghost event = { Online };
}

/// The store of a base's word.
pub struct Shift<K: BaseEventPick> {
    of: PhantomData<K>,
}

impl<K: BaseEventPick> Play<BaseCell, SlotView> for Shift<K> {
    ghost use Rattle.base_row.specs.Plays.{ShiftsBy};

    ghost then = { λ st m stored w. ShiftsBy K.event st m w };
}

/// A load of word 0, or of a timer's, a base's or a counter's word.
pub struct Look;

impl Play<BaseCell, SlotView> for Look {
    ghost use Rattle.base_row.specs.Plays.{LooksOwn};

    ghost then = { LooksOwn };
}

/// A counter's word is raised.
pub struct Raise;

impl Play<BaseCell, SlotView> for Raise {
    ghost use Rattle.base_row.specs.Plays.{RaisesOwn};

    ghost then = { RaisesOwn };
}

/// An exchange of a counter's word for the next one.
pub struct Rise;

impl Play<BaseCell, SlotView> for Rise {
    ghost use Rattle.base_row.specs.Plays.{RisesOwn};

    ghost then = { RisesOwn };
}

/// A load of a lock word.
pub struct Meet;

impl Play<BaseCell, SlotView> for Meet {
    ghost use Rattle.base_row.specs.Plays.{MeetsOwn};

    ghost then = { MeetsOwn };
}

/// An exchange from a free lock word.
pub struct Take;

impl Play<BaseCell, SlotView> for Take {
    ghost use Rattle.base_row.specs.Plays.{TakesOwn};

    ghost then = { TakesOwn };
}

/// A store that lets a base go.
pub struct Free;

impl Play<BaseCell, SlotView> for Free {
    ghost use Rattle.base_row.specs.Plays.{FreesOwn};

    ghost then = { FreesOwn };
}

/// A pass is split off, or taken in.
pub struct Child;

impl Split<SlotView> for Child {
    ghost use Rattle.base_row.specs.Plays.{split_base_view, new_base_view};

    ghost left = { split_base_view };

    ghost right = { new_base_view };
}

impl Join<SlotView> for Child {
    ghost use Rattle.base_row.specs.Plays.{joined_base_view, gone_base_view};

    ghost both = { joined_base_view };

    ghost spent = { gone_base_view };
}

/// A note of what a pass has seen is made, or taken in.
pub struct Note;

impl Split<SlotView> for Note {
    ghost use Rattle.base_row.specs.Plays.{base_note_of};

    ghost left = { λ v. v };

    ghost right = { base_note_of };
}

impl Join<SlotView> for Note {
    ghost use Rattle.base_row.specs.Plays.{told_base_view, gone_base_view};

    ghost both = { told_base_view };

    ghost spent = { gone_base_view };
}
