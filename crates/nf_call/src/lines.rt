//! The texts of a sample: its programs, and the lines of its summary.
ghost use Rattle.std.specs.Prelude.{◌≡◌, IfOk};
ghost use Rattle.nf_call.specs.Lines.{but_last_line, check_text, run_text, sample_line};

use nf_command::SampleSize;
use nf_io::Text;
use std::alloc::{AllocError, Global};

const RUN: &str = "proc netflow arcdata=arcs nodedata=nodes certout=k; run;";

const RUN_CONS: &str =
    "proc netflow arcdata=arcs nodedata=nodes condata=cons sparsecondata certout=k; run;";

const CHECK: &str = "proc netflow arcdata=arcs nodedata=nodes certdata=k;";

const CHECK_CONS: &str =
    "proc netflow arcdata=arcs nodedata=nodes condata=cons sparsecondata certdata=k;";

/// The program that a sample is run by.
pub(crate) fn run_text(size: SampleSize) -> &'static str
    ensures { result.now ≡ run_text size }
{
    if size.cons == 0 { RUN } else { RUN_CONS }
}

/// The program that its certificate is checked by.
pub(crate) fn check_text(size: SampleSize) -> &'static str
    ensures { result.now ≡ check_text size }
{
    if size.cons == 0 { CHECK } else { CHECK_CONS }
}

/// The first line of a summary: the seed and the sizes of its sample.
pub(crate) fn heading(alloc: Global, size: SampleSize) -> Result<Text, AllocError>
    ensures { IfOk result (λ t. t ≡ sample_line size) }
{
    let SampleSize {
        seed,
        nodes,
        arcs,
        cons,
    } = size;
    let line = format!(in alloc;
        "SAMPLE SEED {seed} NODES {nodes} ARCS {arcs} CONSTRAINTS {cons}\n"
    )?;
    Text::from_slice(alloc, line.as_bytes())
}

/// The lines of a listing but its last one.
#[tactic(auto, unfolding(crate::specs::Lines::line_start))]
pub(crate) fn but_last_line(listing: &[u8]) -> &[u8]
    ensures { result.now ≡ but_last_line listing.now }
{
    let mut start = 0;
    for i in 0..listing.len().saturating_sub(1) {
        if listing[i] == b'\n' {
            start = i + 1;
        }
    }
    &listing[..start]
}
