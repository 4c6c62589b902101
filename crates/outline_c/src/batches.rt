#![tactic(auto, using(crate::proofs::NumberCases::numbering))]

ghost use Rattle.std.specs.Prelude.{◌≡◌};
ghost use Rattle.rules.specs.File.{width};
ghost use Rattle.batch_rules.specs.Batch.{issue_moves};
ghost use Rattle.outline_c.specs.Number.{of_issued};

use batch::issue_moves;
use numbers::number;

// Issues moves of nodes to one parent, all or none.
#[unsafe(no_mangle)]
pub extern "C" fn outline_issue_moves(
    buf: &mut [u8],
    replica: u8,
    nodes: &[u16],
    parent: u16,
    out: &mut [u8],
) -> usize
    ensures { (result, buf.new, out.new)
        ≡ of_issued (issue_moves width buf.old out.old replica nodes.now parent) }
{
    number(issue_moves(buf, replica, nodes, parent, out))
}
