ghost use Rattle.std.specs.Prelude.{◌≡◌};
ghost use Rattle.rules.specs.File.{width};
ghost use Rattle.rules.specs.Path.{path_call};
ghost use Rattle.codec.specs.Answers.{answer_of};
ghost use Rattle.view.specs.Answers.{put_in};
ghost use Rattle.view.specs.Asked.{Way, WayOut, Present};
ghost use Rattle.view.specs.Tables.{put_front};
ghost use Rattle.rules.specs.Tree as tree;

use codec::Refusal;
use effect::Tables;
use oplog::counts_of;
use replay::replay_all;
use soundness::{WIDTH, is_sound};
use structure::known_parent;
use tree::{depth_of, slot_of};

// Writes a node, its parent, and so on to the root. By index: of a loop over `&mut out[..steps]` a proof
// does not learn what the entries before the turn's have.
fn write_path(parents: &[u16], node: u16, steps: usize, out: &mut [u16])
    requires { WayOut parents.now node steps out.old }
    ensures { out.new ≡ put_front (tree.path parents.now node) out.old }
{
    let mut at = node;
    for i in 0..steps {
        out[i] = at;
        let slot = slot_of(at);
        at = parents[slot];
    }
    out[steps] = at;
}

// Puts the path of a node into lent entries, if they are enough.
fn put_path(parents: &[u16], node: u16, out: &mut [u16]) -> Result<usize, Refusal>
    requires { Way parents.now node (tree.depth parents.now node) }
    ensures { record { answer = answer_of result; out = out.new }
        ≡ put_in (tree.path parents.now node) out.old }
{
    let steps = depth_of(parents, node);
    if out.len() <= steps {
        return Err(Refusal::NoRoom);
    }
    write_path(parents, node, steps, out);
    Ok(steps + 1)
}

// The same in the present tree, of a node that is known.
fn put_path_now(file: &[u8], node: u16, out: &mut [u16]) -> Result<usize, Refusal>
    requires { Present file.now node }
    ensures { record { answer = answer_of result; out = out.new }
        ≡ path_call width file.now node out.old }
{
    let mut tables = Tables::new();
    replay_all(file, &mut tables, WIDTH);
    put_path(&tables.parents, node, out)
}

// Puts the path of a node into lent entries.
pub fn path(file: &[u8], node: u16, out: &mut [u16]) -> Result<usize, Refusal>
    ensures { record { answer = answer_of result; out = out.new }
        ≡ path_call width file.now node out.old }
{
    if !is_sound(file) {
        return Err(Refusal::Unsound);
    }
    let counts = counts_of(file, WIDTH);
    if !known_parent(file, counts, node, WIDTH) {
        return Err(Refusal::Unknown);
    }
    put_path_now(file, node, out)
}
