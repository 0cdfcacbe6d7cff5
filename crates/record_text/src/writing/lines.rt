//! The lines of a record, each with what it tells, and its whole text.
ghost use Rattle.std.specs.Prelude.{◌≡◌, ◌++◌, ◌∷◌, [], OnOk, IfOk, map};
ghost use Rattle.std.specs.Fmt.{decimal};
ghost use Rattle.record_text.specs.Numbers.{AreMachineNumbers, HasMachineNumbers, HaveMachineNumbers};
ghost use Rattle.record_text.specs.Text.{entry_and_looks, lines_from_timers, line_text, lines_text, object_entry_and_skips, spaced, text_of, Heading, OfBase, OfCall, OfClock, OfLook, OfSkip};

use crate::record::{
    Answer, BaseLine, ClockLine, Label, Look, ObjectLine, RunRecord, Skip, TimerLine,
};
use crate::version::Version;
use crate::writing::entries::write_entry;
use crate::writing::sections::{
    HasLineBelow, HasLines, HasWords, write_below, write_list, write_lists,
};
use crate::writing::text_buffer::TextBuffer;
use crate::writing::words::{version_word, write_name, write_ns, write_numbers, write_word};
use std::alloc::{AllocError, Global};

/// The text of a record, by its version: a line for each write of the clock, then for each entry of each base, then for each
/// entry of each timer with what callbacks were told there, then for each entry of each object with the expiries that were
/// refused there, then for each answer of each lane.
pub fn text(alloc: Global, run: &RunRecord) -> Result<Vec<u8>, AllocError>
    ensures text { IfOk result (λ bytes. bytes.items ≡ text_of run.now) }
    ensures numbers { OnOk result (HasMachineNumbers run.now) }
{
    let mut out = TextBuffer::new(alloc);
    write_record(&mut out, run)?;
    out.into_bytes()
}

/// Writes the text of a record.
#[tactic(auto, using(crate::proofs::RecordTexts::lines_text_both, crate::proofs::RecordTexts::numbers_both))]
fn write_record(out: &mut TextBuffer, run: &RunRecord) -> Result<(), AllocError>
    ensures text { OnOk result (out.new ≡ out.old ++ text_of run.now) }
    ensures numbers { OnOk result (HasMachineNumbers run.now) }
{
    let version = run.version;
    write_heading(out, version)?;
    write_list(out, version, 0, 1, run.clock.as_slice())?;
    write_lists(out, version, 1, run.bases.as_slice())?;
    write_from_timers(out, run)
}

/// Writes the line that a record of this version begins with.
fn write_heading(out: &mut TextBuffer, version: Version) -> Result<(), AllocError>
    ensures { OnOk result (out.new ≡ out.old ++ line_text version Heading) }
{
    out.write_bytes(b"record")?;
    write_word(out, version_word(version), &[])?;
    out.write_bytes(b"\n")
}

/// Writes the lines of the timers, and all that stand behind them.
#[tactic(auto, using(crate::proofs::RecordTexts::lines_text_both, crate::proofs::RecordTexts::numbers_both))]
fn write_from_timers(out: &mut TextBuffer, run: &RunRecord) -> Result<(), AllocError>
    ensures text { OnOk result (out.new ≡ out.old ++ lines_text run.now.version (lines_from_timers run.now)) }
    ensures numbers { OnOk result (HaveMachineNumbers (lines_from_timers run.now)) }
{
    let version = run.version;
    write_lists(out, version, 1, run.timers.as_slice())?;
    write_lists(out, version, 1, run.objects.as_slice())?;
    write_lists(out, version, 0, run.answers.as_slice())?;
    out.write_bytes(b"end\n")
}

/// Writes what a line begins with: its kind, the numbers of its list and its item, and the call that made it.
fn write_head(
    out: &mut TextBuffer,
    kind: &str,
    list: usize,
    number: usize,
    label: Label,
) -> Result<(), AllocError>
    ensures text { OnOk result (out.new ≡ out.old ++ (kind.now ++ spaced (map decimal (list ∷ number ∷ label.lane ∷ label.call ∷ [])))) }
    ensures numbers { OnOk result (AreMachineNumbers (list ∷ number ∷ label.lane ∷ label.call ∷ [])) }
{
    let Label { lane, call } = label;
    out.write_bytes(kind.as_bytes())?;
    let numbers = [list as u64, number as u64, lane.into(), call.into()];
    write_numbers(out, &numbers)
}

/// Writes a line: what it begins with, and its words.
fn write_line_of<W: HasWords>(
    out: &mut TextBuffer,
    kind: &str,
    list: usize,
    number: usize,
    label: Label,
    what: &W,
) -> Result<(), AllocError>
    ensures text { OnOk result (out.new ≡ out.old
        ++ ((kind.now ++ spaced (decimal list ∷ decimal number ∷ decimal label.lane ∷ decimal label.call ∷ W.words what.now)) ++ 10 ∷ [])) }
    ensures numbers { OnOk result (AreMachineNumbers (list ∷ number ∷ label.lane ∷ label.call ∷ W.numbers what.now)) }
{
    write_head(out, kind, list, number, label)?;
    what.write_words(out)?;
    out.write_bytes(b"\n")
}

impl HasLines for ClockLine {
    ghost lines = { λ list number line. OfClock number line ∷ [] };

    fn write_lines(
        &self,
        out: &mut TextBuffer,
        _version: Version,
        _list: usize,
        number: usize,
    ) -> Result<(), AllocError> {
        let Label { lane, call } = self.label;
        let (ns, changes) = (write_ns(self.write), self.changes);
        out.write_bytes(b"clock")?;
        write_numbers(out, &[number as u64, lane.into(), call.into()])?;
        write_word(
            out,
            write_name(self.write),
            &[ns, self.mono, self.real, self.boot, changes],
        )?;
        out.write_bytes(b"\n")
    }
}

impl HasLines for BaseLine {
    ghost lines = { λ base number line. OfBase base number line ∷ [] };

    fn write_lines(
        &self,
        out: &mut TextBuffer,
        _version: Version,
        base: usize,
        number: usize,
    ) -> Result<(), AllocError> {
        write_line_of(out, "base", base, number, self.label, &self.event)
    }
}

impl HasLines for TimerLine {
    ghost lines = { entry_and_looks };

    fn write_lines(
        &self,
        out: &mut TextBuffer,
        version: Version,
        timer: usize,
        number: usize,
    ) -> Result<(), AllocError> {
        write_head(out, "timer", timer, number, self.label)?;
        write_entry(out, version, &self.entry)?;
        out.write_bytes(b"\n")?;
        write_below(out, version, timer, number, self.looks.as_slice())
    }
}

impl HasLines for ObjectLine {
    ghost lines = { object_entry_and_skips };

    fn write_lines(
        &self,
        out: &mut TextBuffer,
        version: Version,
        object: usize,
        number: usize,
    ) -> Result<(), AllocError> {
        write_line_of(out, "object", object, number, self.label, &self.entry)?;
        write_below(out, version, object, number, self.skips.as_slice())
    }
}

impl HasLines for Answer {
    ghost lines = { λ lane call answer. OfCall lane call answer ∷ [] };

    fn write_lines(
        &self,
        out: &mut TextBuffer,
        _version: Version,
        lane: usize,
        call: usize,
    ) -> Result<(), AllocError> {
        out.write_bytes(b"call")?;
        write_numbers(out, &[lane as u64, call as u64])?;
        self.write_words(out)?;
        out.write_bytes(b"\n")
    }
}

impl HasLineBelow for Look {
    ghost line = { OfLook };

    fn write_line(
        &self,
        out: &mut TextBuffer,
        _version: Version,
        timer: usize,
        number: usize,
    ) -> Result<(), AllocError> {
        write_line_of(out, "look", timer, number, self.label, &self.reply)
    }
}

impl HasLineBelow for Skip {
    ghost line = { OfSkip };

    fn write_line(
        &self,
        out: &mut TextBuffer,
        _version: Version,
        object: usize,
        number: usize,
    ) -> Result<(), AllocError> {
        write_line_of(out, "skip", object, number, self.label, self)
    }
}

impl HasWords for Skip {
    ghost words = { λ skip. decimal skip.generation ∷ [] };

    ghost numbers = { λ skip. skip.generation ∷ [] };

    fn write_words(&self, out: &mut TextBuffer) -> Result<(), AllocError> {
        write_numbers(out, &[self.generation])
    }
}
