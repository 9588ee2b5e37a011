//! Writing a problem line by line.
ghost use Rattle.std.specs.Prelude.{◌≡◌, ◌⊎◌, ◌-◌, ◌++◌, ◌∷◌, None, Some, MatchResult, IfOk, OnOk, [], codes, length, decimal};
ghost use Rattle.nf_model.specs.Program.{column, row};
ghost use Rattle.nf_prob.specs.Numbers.{IsNumber};
ghost use Rattle.nf_dimacs_writer.specs.declared.fault.ExportFault.TheVariants.{NoMemory};
ghost use Rattle.nf_dimacs_writer.specs.Refusal.{refusal_of};
ghost use Rattle.nf_dimacs_writer.specs.Written.{arc_line, dimacs_text, lines_from, node_line, or_zero, problem_line, spaced, whole_text};

use crate::fault::ExportFault;
use crate::refusal::refusal_of;
use itoa::Buffer;
use nf_frac::Frac;
use nf_io::Text;
use nf_prob::Problem;
use std::alloc::{AllocError, Global};

/// The DIMACS text of a problem, which is minimised: the `p` line, an `n` line for each node whose right side is not 0,
/// and an `a` line for each column, with single spaces and line feeds.
///
/// The first of these is reported: `Constraints`; `RowNumber` of the first row; and column by column `ColumnNumber`,
/// `NoCapacity`, `Negative`. `NoMemory` if out of memory. No number is computed.
///
/// The time is in proportion to the rows and columns.
pub fn write_dimacs(alloc: Global, p: &Problem) -> Result<Text, ExportFault>
    ensures { MatchResult result
        (λ text. (refusal_of p.now ≡ None) × (text ≡ dimacs_text p.now))
        (λ fault. (fault ≡ NoMemory) ⊎ (refusal_of p.now ≡ Some fault)) }
{
    if let Some(refusal) = refusal_of(p) {
        return Err(refusal);
    }
    match text_of(alloc, p) {
        Ok(text) => Ok(text),
        Err(_) => Err(ExportFault::NoMemory),
    }
}

fn text_of(alloc: Global, p: &Problem) -> Result<Text, AllocError>
    ensures { IfOk result (λ text. text ≡ dimacs_text p.now) }
{
    let mut out = Text::new(alloc);
    put_problem(&mut out, p.nodes(), p.columns())?;
    put_nodes(&mut out, p)?;
    put_arcs(&mut out, p)?;
    Ok(out)
}

fn put_field(out: &mut Text, field: &[u8]) -> Result<(), AllocError>
    ensures { OnOk result (out.new ≡ out.old ++ 32 ∷ field.now) }
{
    out.push(b" ")?;
    out.push(field)
}

fn put_number(out: &mut Text, n: u32) -> Result<(), AllocError>
    ensures { OnOk result (out.new ≡ out.old ++ 32 ∷ decimal n) }
{
    put_field(out, Buffer::new().format(n).as_bytes())
}

fn put_whole(out: &mut Text, x: Frac) -> Result<(), AllocError>
    ensures { OnOk result (out.new ≡ out.old ++ 32 ∷ whole_text x) }
{
    put_field(out, Buffer::new().format(x.num()).as_bytes())
}

fn or_zero(bound: Option<Frac>) -> Frac
    ensures { result ≡ or_zero bound }
{
    match bound {
        None => Frac::zero(),
        Some(x) => x,
    }
}

fn put_problem(out: &mut Text, nodes: u32, arcs: u32) -> Result<(), AllocError>
    ensures { OnOk result (out.new ≡ out.old ++ problem_line nodes arcs) }
{
    out.push(b"p")?;
    put_field(out, b"min")?;
    put_number(out, nodes)?;
    put_number(out, arcs)?;
    out.push(b"\n")
}

fn put_node(out: &mut Text, p: &Problem, i: u32) -> Result<(), AllocError>
    requires { IsNumber i (length p.now.rows) }
    ensures { OnOk result (out.new ≡ out.old ++ node_line i (row p.now (i - 1))) }
{
    let right = p.right(i);
    if right.num() == 0 {
        return Ok(());
    }
    put_flow(out, i, right)
}

fn put_flow(out: &mut Text, i: u32, flow: Frac) -> Result<(), AllocError>
    ensures { OnOk result (out.new ≡ out.old ++ (codes "n" ++ spaced (decimal i ∷ whole_text flow ∷ []))) }
{
    out.push(b"n")?;
    put_number(out, i)?;
    put_whole(out, flow)?;
    out.push(b"\n")
}

fn put_arc(out: &mut Text, p: &Problem, j: u32) -> Result<(), AllocError>
    requires { IsNumber j (length p.now.columns) }
    ensures { OnOk result (out.new ≡ out.old ++ arc_line j (column p.now (j - 1))) }
{
    out.push(b"a")?;
    put_number(out, p.tail(j))?;
    put_number(out, p.head(j))?;
    put_whole(out, or_zero(p.lower(j)))?;
    put_whole(out, or_zero(p.upper(j)))?;
    put_whole(out, p.cost(j))?;
    out.push(b"\n")
}

fn put_nodes(out: &mut Text, p: &Problem) -> Result<(), AllocError>
    ensures { OnOk result (out.new ≡ out.old ++ lines_from node_line 1 p.now.rows) }
{
    for i in 0..p.rows() {
        put_node(out, p, i + 1)?;
    }
    Ok(())
}

fn put_arcs(out: &mut Text, p: &Problem) -> Result<(), AllocError>
    ensures { OnOk result (out.new ≡ out.old ++ lines_from arc_line 1 p.now.columns) }
{
    for j in 0..p.columns() {
        put_arc(out, p, j + 1)?;
    }
    Ok(())
}
