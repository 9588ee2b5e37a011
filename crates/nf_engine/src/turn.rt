// What is due in a state: a change of it, or none, since it has ended.
ghost use Rattle.std.specs.Prelude.{◌≡◌, ℕ, suc, true, false, ◌+◌, ◌*◌, ◌<◌, ◌≤◌, length, IfOk, IfErr};
ghost use Rattle.nf_sums.specs.Terms.{PassesIn};
ghost use Rattle.nf_simplex.specs.Size.{size};
ghost use Rattle.nf_simplex.specs.Moves.{CanEnterIn};
ghost use Rattle.nf_simplex.specs.Standing.{IsFeasibleState, Standing, rows_of};
ghost use Rattle.nf_price.specs.Choice.{HasEligible, TellsShort};
ghost use Rattle.nf_price.specs.Queue.{pricing};
ghost use Rattle.nf_price.specs.Rules.{HasSize};
ghost use Rattle.nf_basis.specs.Arising.{StateTerms};
ghost use Rattle.nf_basis.specs.Kept.{IsNonbasic, IsPresent, IsStateOf, number};
ghost use Rattle.nf_basis.specs.Names.{col_of};
ghost use Rattle.nf_basis.specs.Numbers.{AreDualsByRow};
ghost use Rattle.nf_ratio.specs.Ratios.{StandsAloneAfter};
ghost use Rattle.nf_engine.specs.Steps.{IsLeft, IsLimited, IsTestedBy, IsTurn, LeavesQueue, limited_by};

use crate::artificials::is_short;
use crate::halt::Moved;
use crate::room::Room;
use nf_basis::{Basis, Col, Phase, Place, State};
use nf_frac::{Frac, Passed, Steps};
use nf_price::{Pick, Queue, Rule, advance, choose};
use nf_prob::Problem;
use nf_ratio::{Limit, Work3, limit};
use std::sync::ledger::Ledger;

// A change that moves one column: it becomes basic in a slot, whose column goes to a bound, or goes to its other bound.
#[derive(Clone, Copy)]
pub(crate) enum Change {
    Pivot { entering: Col, slot: u32, to: Place },
    Flip(Col),
}

// What is due: a change, or none, since the state has ended.
#[derive(Clone, Copy)]
pub(crate) enum Turn {
    Changes(Change),
    Ended(Moved),
}

// What is due, and whether the artificials sum to more than 0.
#[derive(Clone, Copy)]
pub(crate) struct Finding {
    pub(crate) turn: Turn,
    pub(crate) short: bool,
}

// Prices the columns, and tests the ratios of the one that the rule picks. If a change is due, and is to be made, the
// queue becomes the next one. `met` may say that the artificials are known to sum to 0.
pub(crate) fn look<B: Basis, L: Ledger>(
    p: &Problem,
    basis: &mut B,
    rule: Rule,
    cursor: u32,
    queue: &mut Queue,
    moves: bool,
    met: bool,
    room: &mut Room,
    steps: &mut Steps<L>,
) -> Result<Finding, Passed>
    requires numbers { B.HasNumbers p.now basis.old }
    requires feasible { IsFeasibleState p.now (B.standing basis.old) }
    requires room { room.old ≡ rows_of p.now (B.standing basis.old) }
    requires size { HasSize rule }
    requires met { met ≡ true → TellsShort p.now (B.standing basis.old) false }
    ensures numbers { IfOk result (λ _. B.HasNumbers p.now basis.new) }
    ensures standing { IfOk result (λ _. B.standing basis.new ≡ B.standing basis.old) }
    ensures slots { IfOk result (λ _. B.slots basis.new ≡ B.slots basis.old) }
    ensures room { room.new ≡ room.old }
    ensures turn { IfOk result (λ l. IsTurn p.now rule (B.standing basis.old) (pricing cursor queue.old) (B.slots basis.old) l.turn) }
    ensures left { IfOk result (λ l. IsLeft p.now rule (B.standing basis.old) (pricing cursor queue.old) moves l.turn queue.new) }
    ensures short { IfOk result (λ l. TellsShort p.now (B.standing basis.old) l.short) }
    ensures passed { IfErr result (PassesIn (StateTerms p.now (B.standing basis.old))) }
    ensures cost { (t : ℕ) → IsTestedBy p.now rule (B.standing basis.old) (pricing cursor queue.old) t → steps.new ≤ steps.old + (4 * (1 + t) * B.unit p.now (B.standing basis.old).stage + 48 * (1 + t) * size p.now (B.standing basis.old).stage) }
{
    basis.duals(p, Phase::One, room.one.as_mut_slice(), steps)?;
    basis.duals(p, Phase::Two, room.two.as_mut_slice(), steps)?;
    let short = is_short(p, basis, met);
    let picked = choose(
        p,
        basis.state(),
        rule,
        cursor,
        queue,
        short,
        room.one.as_slice(),
        room.two.as_slice(),
        steps,
    )?;
    match picked {
        Some(pick) => {
            let turn = move_of(p, basis, pick, &mut room.work, steps)?;
            leave(
                p,
                basis.state(),
                turn,
                moves,
                rule,
                cursor,
                queue,
                short,
                room.one.as_slice(),
                room.two.as_slice(),
                steps,
            )?;
            Ok(Finding { turn, short })
        }
        None if short => Ok(Finding {
            turn: Turn::Ended(Moved::NoFlow),
            short,
        }),
        None => Ok(Finding {
            turn: Turn::Ended(Moved::Best),
            short,
        }),
    }
}

// What is due where a column enters.
fn move_of<B: Basis, L: Ledger>(
    p: &Problem,
    basis: &mut B,
    pick: Pick,
    work: &mut Work3,
    steps: &mut Steps<L>,
) -> Result<Turn, Passed>
    requires numbers { B.HasNumbers p.now basis.old }
    requires feasible { IsFeasibleState p.now (B.standing basis.old) }
    requires nonbasic { IsNonbasic p.now (B.standing basis.old) pick.col }
    requires enters { CanEnterIn p.now (B.standing basis.old) (col_of pick.col) pick.down }
    requires room { work.old ≡ rows_of p.now (B.standing basis.old) }
    ensures numbers { IfOk result (λ _. B.HasNumbers p.now basis.new) }
    ensures standing { IfOk result (λ _. B.standing basis.new ≡ B.standing basis.old) }
    ensures slots { IfOk result (λ _. B.slots basis.new ≡ B.slots basis.old) }
    ensures room { work.new ≡ work.old }
    ensures limited { IfOk result (IsLimited p.now (B.standing basis.old) (B.slots basis.old) pick.col pick.down) }
    ensures passed { IfErr result (PassesIn (StateTerms p.now (B.standing basis.old))) }
    ensures cost { (t : ℕ) → StandsAloneAfter p.now (B.standing basis.old) (col_of pick.col) pick.down t → steps.new ≤ steps.old + (1 + t) * (B.unit p.now (B.standing basis.old).stage + 4 * size p.now (B.standing basis.old).stage) }
{
    let answer = limit(p, basis, pick.col, pick.down, work, steps)?;
    Ok(limited(pick.col, answer))
}

// Makes the queue the next one, if the turn is a change that is to be made.
fn leave<L: Ledger>(
    p: &Problem,
    state: &State,
    turn: Turn,
    moves: bool,
    rule: Rule,
    cursor: u32,
    queue: &mut Queue,
    short: bool,
    one: &[Frac],
    two: &[Frac],
    steps: &mut Steps<L>,
) -> Result<(), Passed>
    requires state { IsStateOf p.now state.now }
    requires size { HasSize rule }
    requires places_one { length one.now ≡ rows_of p.now state.now.standing }
    requires places_two { length two.now ≡ rows_of p.now state.now.standing }
    requires one { AreDualsByRow p.now state.now.standing Phase.One one.now }
    requires two { AreDualsByRow p.now state.now.standing Phase.Two two.now }
    requires short { TellsShort p.now state.now.standing short }
    requires eligible { HasEligible p.now state.now.standing one.now two.now short }
    ensures left { IfOk result (λ _. IsLeft p.now rule state.now.standing (pricing cursor queue.old) moves turn queue.new) }
    ensures passed { IfErr result (PassesIn (StateTerms p.now state.now.standing)) }
    ensures cost { steps.new ≤ steps.old + 16 * size p.now state.now.standing.stage }
{
    if !moves {
        return Ok(());
    }
    match turn {
        Turn::Ended(_) => Ok(()),
        Turn::Changes(_) => next_queue(p, state, rule, cursor, queue, short, one, two, steps),
    }
}

// Makes the queue the next one: the rules other than QUEUE leave it as it is.
fn next_queue<L: Ledger>(
    p: &Problem,
    state: &State,
    rule: Rule,
    cursor: u32,
    queue: &mut Queue,
    short: bool,
    one: &[Frac],
    two: &[Frac],
    steps: &mut Steps<L>,
) -> Result<(), Passed>
    requires state { IsStateOf p.now state.now }
    requires size { HasSize rule }
    requires places_one { length one.now ≡ rows_of p.now state.now.standing }
    requires places_two { length two.now ≡ rows_of p.now state.now.standing }
    requires one { AreDualsByRow p.now state.now.standing Phase.One one.now }
    requires two { AreDualsByRow p.now state.now.standing Phase.Two two.now }
    requires short { TellsShort p.now state.now.standing short }
    requires eligible { HasEligible p.now state.now.standing one.now two.now short }
    ensures next { IfOk result (λ _. LeavesQueue p.now rule state.now.standing (pricing cursor queue.old) queue.new) }
    ensures passed { IfErr result (PassesIn (StateTerms p.now state.now.standing)) }
    ensures cost { steps.new ≤ steps.old + 16 * size p.now state.now.standing.stage }
{
    match rule {
        Rule::First => Ok(()),
        Rule::Best => Ok(()),
        Rule::Bland => Ok(()),
        Rule::Queue { size } => advance(p, state, size, cursor, queue, short, one, two, steps),
    }
}

// What is due by the ratio test's answer.
fn limited(entering: Col, answer: Limit) -> Turn
    ensures { result ≡ limited_by entering answer }
{
    match answer {
        Limit::Leave { slot, to } => Turn::Changes(Change::Pivot { entering, slot, to }),
        Limit::Flip => Turn::Changes(Change::Flip(entering)),
        Limit::Ray => Turn::Ended(Moved::NoBound(entering)),
    }
}

// The number of a column, from 1.
pub(crate) fn number_of(p: &Problem, col: Col) -> u32
    requires present { (s : Standing) × IsPresent p.now s col }
    ensures { result ≡ suc (number p.now col) }
{
    let (columns, nodes, rows) = (p.columns(), p.nodes(), p.rows());
    match col {
        Col::Given(j) => j,
        Col::Slack(i) => columns + (i - nodes),
        Col::Artificial(i) => columns + (rows - nodes) + i,
    }
}
