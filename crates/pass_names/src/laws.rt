//! What lets a caller take in a pass: a law over what the calls' clauses name.
ghost use Rattle.std.specs.Prelude.{◌≡◌};
ghost use Rattle.pass_names.specs.declared.PassId.{PassId};
ghost use Rattle.pass_names.specs.Names.{AnswersFor, after_split, child_of};

/// A pass that has split one off, and has done nothing since that changes its name, answers for that one.
pub fn a_pass_answers_for_its_split()
    ensures { (before splitter child : PassId) → splitter ≡ after_split before → child ≡ child_of before → AnswersFor splitter child }
{}
