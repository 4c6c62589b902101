#![tactic(auto, using(crate::proofs::NumberCases::numbering))]

ghost use Rattle.std.specs.Prelude.{◌≡◌};
ghost use Rattle.rules.specs.Bundle.{bundle_call, open_bundle};
ghost use Rattle.rules.specs.File.{width};
ghost use Rattle.outline_c.specs.Number.{of_result, of_written};

use bundle::{make, open};
use numbers::number;

// Makes a bundle of all ops beyond another's eight counts in lent bytes.
#[unsafe(no_mangle)]
pub extern "C" fn outline_bundle_make(file: &[u8], counts: &[u8; 8], out: &mut [u8]) -> usize
    ensures { (result, out.new)
        ≡ of_written (bundle_call width file.now counts.now out.old) }
{
    let others = *counts;
    number(make(file, others, out))
}

// Opens a bundle at the log in a buffer.
#[unsafe(no_mangle)]
pub extern "C" fn outline_bundle_open(buf: &mut [u8], bundle: &[u8]) -> usize
    ensures { (result, buf.new) ≡ of_result (open_bundle width buf.old bundle.now) }
{
    number(open(buf, bundle))
}
