//! Laws on objects, which callers cite.
ghost use Rattle.std.specs.Prelude.{◌≡◌, ℕ, List};
ghost use Rattle.counted_row.specs.Views.{StateAfter};
ghost use Rattle.counted_row.specs.declared.view.Entry.{Entry};
ghost use Rattle.timer_setting.specs.declared.object_call.ObjectCall.{ObjectCall};
ghost use Rattle.timer_setting.specs.declared.object_call.ObjectReply.{ObjectReply};
ghost use Rattle.timer_objects.specs.declared.object.Object.{Object};
ghost use Rattle.timer_objects.specs.Histories.{IsHistoryOf, answered_calls};
ghost use Rattle.timer_objects.specs.Known.{ObjectsOf, decl_at};
ghost use Rattle.timer_objects.specs.Meaning.{object_meaning, opened_objects};

/// What was seen of an object is a history that one object of its declaration gives, and its state is the one after it. So the laws of the histories
/// of POSIX timers, descriptors and sleepers hold of the objects' own.
pub fn an_object_has_one_history()
    ensures { (x : ObjectsOf) (id : ℕ) (log : List (Entry ObjectCall ObjectReply)) (state : Object) → StateAfter object_meaning (opened_objects x.decls x.limit) id log state → IsHistoryOf (decl_at x id) x.limit (answered_calls log) state }
{}
