//! What passes of objects tell each other.
ghost use Rattle.std.specs.Prelude.{◌≡◌, length};
ghost use Rattle.pass_names.specs.Names.{AnswersFor};
ghost use Rattle.timer_objects.specs.Known.{IsObjectsPass};
ghost use Rattle.object_uses.specs.Callers.{HasHeard};

use counted_row::RowPass;
use timer_objects::{Object, Objects};

/// A pass meets another that was split off it, and takes it in: then it has seen every entry of both, and has made all that both have made.
pub fn hear_all(objects: &Objects, first: &mut RowPass<Object>, mut second: RowPass<Object>)
    requires pass { IsObjectsPass objects.now first.old × IsObjectsPass objects.now second }
    requires answers { AnswersFor first.old.knows.pass.id second.knows.pass.id }
    ensures pass { IsObjectsPass objects.now first.new }
    ensures heard { HasHeard first.old.knows.pass second.knows.pass first.new.knows.pass }
{
    objects.meet(first, &mut second);
    objects.join(first, second);
}
