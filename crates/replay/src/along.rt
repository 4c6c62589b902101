ghost use Rattle.std.specs.Prelude.{◌≡◌};
ghost use Rattle.rules.specs.File.{log_of};
ghost use Rattle.effect.specs.Effects.{state_of};
ghost use Rattle.replay.specs.Tables.{Along, applied_along};

use effect::Tables;
use schedule::Entry;

// Applies the ops of entries, one after another.
#[tactic(auto, using(crate::proofs::AlongLaws::along_none, crate::proofs::AlongLaws::along_more))]
pub(crate) fn apply_along(file: &[u8], entries: &[Entry], tables: &mut Tables, width: usize)
    requires { Along width file.now entries.now }
    ensures { state_of tables.new
        ≡ applied_along (log_of width file.now) entries.now (state_of tables.old) }
{
    for entry in entries {
        tables.apply(file, *entry, width);
    }
}
