// The ends of a column of stage one, and its name in the links.
ghost use Rattle.std.specs.Prelude.{◌≡◌, ◌≤◌, ◌<◌, length};
ghost use Rattle.nf_model.specs.Program.{at};
ghost use Rattle.nf_simplex.specs.StageOf.{StageOne};
ghost use Rattle.nf_basis.specs.Kept.{IsPresent, IsStateOf, number};
ghost use Rattle.nf_basis.specs.Numbers.{in_slot};
ghost use Rattle.nf_tree.specs.Vertices.{head_at, link_name, tail_at};

use nf_basis::{Col, State};
use nf_frac::Frac;
use nf_prob::Problem;

/// The tail of a column.
pub(crate) fn tail_of(p: &Problem, state: &State, col: Col) -> u32
    requires state { IsStateOf p.now state.now }
    requires stage { state.now.standing.stage ≡ StageOne }
    requires present { IsPresent p.now state.now.standing col }
    ensures value { result ≡ tail_at p.now state.now.standing (number p.now col) }
    ensures within { result ≤ p.now.nodes }
{
    match col {
        Col::Given(j) => p.tail(j),
        Col::Artificial(i) => { if state.negative(i) { 0 } else { i } }
        Col::Slack(_) => 0,
    }
}

/// The head of a column.
pub(crate) fn head_of(p: &Problem, state: &State, col: Col) -> u32
    requires state { IsStateOf p.now state.now }
    requires stage { state.now.standing.stage ≡ StageOne }
    requires present { IsPresent p.now state.now.standing col }
    ensures value { result ≡ head_at p.now state.now.standing (number p.now col) }
    ensures within { result ≤ p.now.nodes }
{
    match col {
        Col::Given(j) => p.head(j),
        Col::Artificial(i) => { if state.negative(i) { i } else { 0 } }
        Col::Slack(_) => 0,
    }
}

/// The name of a column in the links.
pub(crate) fn name_of(p: &Problem, state: &State, col: Col) -> u32
    requires state { IsStateOf p.now state.now }
    requires present { IsPresent p.now state.now.standing col }
    ensures { result ≡ link_name p.now col }
{
    let (columns, rows) = (p.columns(), p.rows());
    match col {
        Col::Given(j) => j,
        Col::Slack(i) => i,
        Col::Artificial(i) => columns + i,
    }
}

/// The column in a slot.
pub(crate) fn column_in(slots: &[Col], slot: usize) -> Col
    requires within { slot < length slots.now }
    ensures { result ≡ in_slot slots.now slot }
{
    slots[slot]
}

/// The number at a place of a list.
pub(crate) fn number_in(numbers: &[Frac], place: usize) -> Frac
    requires within { place < length numbers.now }
    ensures { result ≡ at numbers.now place }
{
    numbers[place]
}
