//! That the text of a record determines it.
ghost use Rattle.std.specs.Prelude.{◌≡◌, length};
ghost use Rattle.record_text.specs.Numbers.{HasMachineNumbers, HasNoSlack, HasReplies};
ghost use Rattle.record_text.specs.Text.{text_of};
ghost use Rattle.record_text.specs.declared.record.RunRecord.{RunRecord};
ghost use Rattle.record_text.specs.declared.version.Version.TheVariants.{One};

/// The text determines the record: two records for as many bases, timers, objects and lanes with equal text are equal. Each entry
/// of a timer is asked to have a reply that its event has. A text of version 1 does not show slack, so it determines the record
/// among those without slack. `text` tells of each record whose text it gives that its numbers are ones that a program can hold.
pub fn text_determines_the_record()
    ensures { (a b : RunRecord) → HasMachineNumbers a → HasMachineNumbers b → HasReplies a → HasReplies b
        → (a.version ≡ One → HasNoSlack a) → (b.version ≡ One → HasNoSlack b)
        → length a.bases ≡ length b.bases → length a.timers ≡ length b.timers
        → length a.objects ≡ length b.objects → length a.answers ≡ length b.answers
        → text_of a ≡ text_of b → a ≡ b }
{}
