//! What SHOW PROBLEM prints.
ghost use Rattle.std.specs.Prelude.{◌≡◌, ◌-◌, ◌++◌, IfOk, OnOk, count_by, length};
ghost use Rattle.nf_labels.specs.Labels.{AreLabelsOf};
ghost use Rattle.nf_prob.specs.Numbers.{IsNumber, row_list};
ghost use Rattle.nf_print.specs.Sizes.{coefficients, has_value, network_lines, problem_lines, side_lines};

use nf_io::Text;
use nf_labels::Labels;
use nf_prob::Problem;
use std::alloc::{AllocError, Global};

// The nodes and arcs.
fn add_network(
    text: &mut Vec<u8>,
    alloc: Global,
    p: &Problem,
    labels: &Labels,
) -> Result<(), AllocError>
    requires labels { AreLabelsOf labels.now p.now }
    ensures { OnOk result (text.new.items ≡ text.old.items ++ network_lines p.now labels.now) }
{
    let (nodes, own) = (p.nodes(), labels.own_arcs());
    let excess = p.arcs() - own;
    text.extend_from_slice(format!(in alloc;
        "NODES {nodes}\nARCS {own}\nEXCESS ARCS {excess}\n"
    )?.as_bytes())?;
    Ok(())
}

// How many entries of a row are not 0.
fn count_row(p: &Problem, i: u32) -> usize
    requires number { IsNumber i (length p.now.rows) }
    ensures { result ≡ count_by has_value (row_list p.now (i - 1)) }
{
    let entries = p.row_entries(i);
    let mut count = 0usize;
    for entry in entries {
        if entry.value.num() != 0 {
            count += 1;
        }
    }
    count
}

// How many coefficients of constraints are not 0. A problem in memory has fewer than 2^64.
fn count_coefficients(p: &Problem) -> Result<u64, AllocError>
    ensures { IfOk result (λ n. n ≡ coefficients p.now) }
{
    let nodes = p.nodes();
    let mut total = 0u64;
    for k in 0..p.rows() - nodes {
        let Some(sum) = total.checked_add(count_row(p, nodes + k + 1) as u64) else {
            return Err(AllocError);
        };
        total = sum;
    }
    Ok(total)
}

// The nonarc variables, the constraints and their coefficients.
fn add_sides(text: &mut Vec<u8>, alloc: Global, p: &Problem) -> Result<(), AllocError>
    ensures { OnOk result (text.new.items ≡ text.old.items ++ side_lines p.now) }
{
    let count = count_coefficients(p)?;
    let nonarcs = p.columns() - p.arcs();
    let constraints = p.rows() - p.nodes();
    text.extend_from_slice(format!(in alloc;
        "NONARCS {nonarcs}\nCONSTRAINTS {constraints}\nCOEFFICIENTS {count}\n"
    )?.as_bytes())?;
    Ok(())
}

/// SHOW PROBLEM: how many nodes, arcs of ARCDATA, excess arcs, nonarc variables and constraints there are, and how many
/// coefficients of constraints are not 0.
///
/// `AllocError` if out of memory.
#[tactic(auto, unfolding(crate::specs::Sizes::problem_lines))]
pub fn show_problem(alloc: Global, p: &Problem, labels: &Labels) -> Result<Text, AllocError>
    requires labels { AreLabelsOf labels.now p.now }
    ensures text { IfOk result (λ t. t ≡ problem_lines p.now labels.now) }
{
    let mut text = Vec::new(alloc);
    add_network(&mut text, alloc, p, labels)?;
    add_sides(&mut text, alloc, p)?;
    Ok(Text::from_vec(text))
}
