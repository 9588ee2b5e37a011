//! The choice of the entering column.
ghost use Rattle.std.specs.Prelude.{◌≡◌, ◌+◌, ◌*◌, ◌<◌, ◌≤◌, length, IfOk, IfErr, IfNone, IfSome};
ghost use Rattle.nf_sums.specs.Terms.{PassesIn};
ghost use Rattle.nf_simplex.specs.Columns.{col_at};
ghost use Rattle.nf_simplex.specs.Layout.{layout_of};
ghost use Rattle.nf_simplex.specs.Moves.{IsPickedIn, WouldLower};
ghost use Rattle.nf_simplex.specs.Size.{size};
ghost use Rattle.nf_simplex.specs.Standing.{rows_of};
ghost use Rattle.nf_basis.specs.Arising.{StateTerms};
ghost use Rattle.nf_basis.specs.Kept.{IsNonbasic, IsStateOf, number};
ghost use Rattle.nf_basis.specs.Names.{col_of, named};
ghost use Rattle.nf_basis.specs.Numbers.{AreDualsByRow};
ghost use Rattle.nf_duals.specs.Priced.{HasDuals, count_priced};
ghost use Rattle.nf_price.specs.Choice.{HasEligible, HasEnded, TellsShort};
ghost use Rattle.nf_price.specs.Cost.{paid};
ghost use Rattle.nf_price.specs.Queue.{pricing};
ghost use Rattle.nf_price.specs.Rules.{HasSize, rule_of};
ghost use Rattle.nf_price.specs.Wanted.{IsChosen, Wants, WantsNone};

use crate::candidate::Candidate;
use crate::front::front_of;
use crate::level::is_level;
use crate::pick::Pick;
use crate::queue::Queue;
use crate::rule::Rule;
use crate::scan::{first_wanted, greatest_wanted};
use nf_basis::{Phase, State};
use nf_duals::{priced_column, priced_columns};
use nf_frac::{Frac, Passed, Steps};
use nf_prob::Problem;
use std::sync::ledger::Ledger;

/// The column that enters, with its direction: of the eligible columns the one that the rule and the cursor pick, and
/// `None` exactly where the state has ended.
///
/// `duals_one` and `duals_two` are the state's duals of the two phases, by row of the stage, and `short` says whether
/// its artificials sum to more than 0. The cursor is the number of the column that was picked last, and 0 where none
/// was: given columns by number, and then the slack of row i as number `columns + i - nodes`. The numbers of the queue are
/// such numbers too, and only the rule QUEUE reads it.
///
/// Phase one decides wherever it wants a column. Where it wants none, the state has ended infeasible where it is short,
/// and else phase two decides among the columns with the phase-one reduced cost 0.
///
/// `Passed` only where an operation of a reduced cost passes 128 bits. At most `16 w` steps, w the size of the problem
/// in the stage. It takes no memory.
pub fn choose<L: Ledger>(
    p: &Problem,
    state: &State,
    rule: Rule,
    cursor: u32,
    queue: &Queue,
    short: bool,
    duals_one: &[Frac],
    duals_two: &[Frac],
    steps: &mut Steps<L>,
) -> Result<Option<Pick>, Passed>
    requires state { IsStateOf p.now state.now }
    requires size { HasSize rule }
    requires places_one { length duals_one.now ≡ rows_of p.now state.now.standing }
    requires places_two { length duals_two.now ≡ rows_of p.now state.now.standing }
    requires duals_one { AreDualsByRow p.now state.now.standing Phase.One duals_one.now }
    requires duals_two { AreDualsByRow p.now state.now.standing Phase.Two duals_two.now }
    requires short { TellsShort p.now state.now.standing short }
    ensures picked { IfOk result (λ r. IfSome r (λ q. IsPickedIn p.now state.now.standing (rule_of rule) (pricing cursor queue.now) (col_of q.col))) }
    ensures nonbasic { IfOk result (λ r. IfSome r (λ q. IsNonbasic p.now state.now.standing q.col)) }
    ensures lowers { IfOk result (λ r. IfSome r (λ q. WouldLower p.now state.now.standing (col_of q.col) q.down)) }
    ensures eligible { IfOk result (λ r. IfSome r (λ _. HasEligible p.now state.now.standing duals_one.now duals_two.now short)) }
    ensures ended { IfOk result (λ r. IfNone r (HasEnded p.now state.now.standing short)) }
    ensures passed { IfErr result (PassesIn (StateTerms p.now state.now.standing)) }
    ensures cost { steps.new ≤ steps.old + 16 * size p.now state.now.standing.stage }
{
    if let Some(c) = chosen_one(p, state, rule, cursor, queue, duals_one, duals_two, steps)? {
        return Ok(Some(picked(p, c)));
    }
    if short {
        return Ok(None);
    }
    match chosen(
        p,
        state,
        Phase::Two,
        rule,
        cursor,
        queue,
        duals_one,
        duals_two,
        steps,
    )? {
        Some(c) => Ok(Some(picked(p, c))),
        None => Ok(None),
    }
}

// The candidate as it is picked.
fn picked(p: &Problem, c: Candidate) -> Pick
    requires within { c.number < count_priced p.now }
    ensures number { number p.now result.col ≡ c.number }
    ensures column { col_of result.col ≡ col_at (layout_of p.now) c.number }
    ensures named { 0 < named result.col }
    ensures down { result.down ≡ c.down }
{
    Pick {
        col: priced_column(p, c.number),
        down: c.down,
    }
}

// The candidate that the rule picks of those that phase one wants: none, without a look at the columns, where its duals
// are level.
fn chosen_one<L: Ledger>(
    p: &Problem,
    state: &State,
    rule: Rule,
    cursor: u32,
    queue: &Queue,
    one: &[Frac],
    two: &[Frac],
    steps: &mut Steps<L>,
) -> Result<Option<Candidate>, Passed>
    requires state { IsStateOf p.now state.now }
    requires one { HasDuals p.now state.now.standing Phase.One one.now }
    requires two { HasDuals p.now state.now.standing Phase.Two two.now }
    ensures some { IfOk result (λ r. IfSome r (IsChosen p.now state.now.standing Phase.One one.now two.now (rule_of rule) (pricing cursor queue.now))) }
    ensures none { IfOk result (λ r. IfNone r (WantsNone p.now state.now.standing Phase.One one.now two.now)) }
    ensures passed { IfErr result (PassesIn (StateTerms p.now state.now.standing)) }
    ensures cost { steps.new ≤ steps.old + paid p.now Phase.One (count_priced p.now) }
{
    if is_level(p, one) {
        return Ok(None);
    }
    let c = chosen(p, state, Phase::One, rule, cursor, queue, one, two, steps)?;
    Ok(c)
}

// The candidate that the rule picks of those that a phase wants.
fn chosen<L: Ledger>(
    p: &Problem,
    state: &State,
    phase: Phase,
    rule: Rule,
    cursor: u32,
    queue: &Queue,
    one: &[Frac],
    two: &[Frac],
    steps: &mut Steps<L>,
) -> Result<Option<Candidate>, Passed>
    requires state { IsStateOf p.now state.now }
    requires one { HasDuals p.now state.now.standing Phase.One one.now }
    requires two { HasDuals p.now state.now.standing Phase.Two two.now }
    ensures some { IfOk result (λ r. IfSome r (IsChosen p.now state.now.standing phase one.now two.now (rule_of rule) (pricing cursor queue.now))) }
    ensures none { IfOk result (λ r. IfNone r (WantsNone p.now state.now.standing phase one.now two.now)) }
    ensures passed { IfErr result (PassesIn (StateTerms p.now state.now.standing)) }
    ensures cost { steps.new ≤ steps.old + paid p.now phase (count_priced p.now) }
{
    let count = priced_columns(p);
    match rule {
        Rule::Bland => first_wanted(p, state, phase, one, two, 0, count, steps),
        Rule::Best => greatest_wanted(p, state, phase, one, two, steps),
        Rule::First => {
            let from = cursor.min(count);
            match first_wanted(p, state, phase, one, two, from, count, steps)? {
                Some(c) => Ok(Some(c)),
                None => first_wanted(p, state, phase, one, two, 0, from, steps),
            }
        }
        Rule::Queue { size: _ } => front_of(p, state, phase, cursor, queue, one, two, steps),
    }
}
