//! Laws of reading: at most one script is read, bytes are read or refused, and version 1 asks for nothing that came later.
ghost use Rattle.std.specs.Prelude.{◌≡◌, ℕ, List, ◌⊎◌};
ghost use Rattle.record_text.specs.declared.version.Version.TheVariants as versions;
ghost use Rattle.script_text.specs.Scripts.{IsInRange, Reads};
ghost use Rattle.script_text.specs.VersionOne.{IsHard};
ghost use Rattle.script_text.specs.Refusals.{IsRefused};
ghost use Rattle.script_text.specs.declared.refusal.Refused.{Refused};
ghost use Rattle.script_text.specs.declared.script.Script.{Script};

/// Bytes are read as one script at most.
pub fn at_most_one_script_is_read()
    ensures { (bytes : List ℕ) → (s t : Script) → Reads bytes s → Reads bytes t → s ≡ t }
{}

/// Bytes are read as a script, or they are refused in one way, and not both.
pub fn bytes_are_read_or_refused()
    ensures either { (bytes : List ℕ) → ((s : Script) × Reads bytes s) ⊎ ((r : Refused) × IsRefused bytes r) }
    ensures never_both { (bytes : List ℕ) → (s : Script) → (r : Refused) → Reads bytes s → IsRefused bytes r → ⊥ }
    ensures one_refusal { (bytes : List ℕ) → (q r : Refused) → IsRefused bytes q → IsRefused bytes r → q ≡ r }
{}

/// A script of version 1 asks for no slack and takes no base off line, and all its timers and expiries are of the hard context.
pub fn version_one_is_hard()
    ensures { (s : Script) → IsInRange s → s.version ≡ versions.One → IsHard s }
{}
