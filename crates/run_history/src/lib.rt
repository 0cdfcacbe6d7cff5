//! What it means that a record fits a script, and the law by which what many lanes leave together makes a record that does.
#![tactic(auto)]

ghost use Rattle.script_text.specs.declared.script.Script.{Script};
ghost use Rattle.record_text.specs.declared.record.RunRecord.{RunRecord};
ghost use Rattle.run_history.specs.Fits.{Fits};
ghost use Rattle.run_history.specs.Runs.{IsRun};

/// What many lanes leave together makes a record that fits the script.
pub fn a_run_of_lanes_fits()
    ensures { (s : Script) (r : RunRecord) → IsRun s r → Fits s r }
{}
