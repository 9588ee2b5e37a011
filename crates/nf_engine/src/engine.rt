//! The engine.
ghost use Rattle.std.specs.Prelude.{◌≡◌, ℕ, suc, true, false, [], ◌+◌, ◌*◌, ◌^◌, ◌<◌, ◌≤◌, IfOk, IfErr};
ghost use Rattle.nf_sums.specs.Terms.{PassesIn};
ghost use Rattle.nf_simplex.specs.Queue.{PricingState};
ghost use Rattle.nf_simplex.specs.Size.{size};
ghost use Rattle.nf_simplex.specs.Standing.{IsFeasibleState, Standing, rows_of};
ghost use Rattle.nf_basis.specs.Arising.{StateTerms};
ghost use Rattle.nf_basis.specs.Kept.{IsPresent, number};
ghost use Rattle.nf_engine.specs.Point.{point};
ghost use Rattle.nf_price.specs.Choice.{TellsShort};
ghost use Rattle.nf_price.specs.Queue.{pricing};
ghost use Rattle.nf_price.specs.Rules.{HasSize};
ghost use Rattle.nf_price.specs.declared.rule.Rule.{Rule as RuleName};
ghost use Rattle.nf_engine.specs.Run.{IsHaltDue, IsTurnTo, PassesAt, RunsTo};
ghost use Rattle.nf_engine.specs.Steps.{IsDue, IsMade, IsStep, IsTestedBy};

use crate::artificials::{is_short, rows_in};
use crate::halt::{Halt, Moved, Pauses};
use crate::room::Room;
use crate::turn::{Change, Turn, look, number_of};
use nf_basis::{Basis, Col};
use nf_frac::{Passed, Steps};
use nf_price::{Queue, Rule};
use nf_prob::Problem;
use std::alloc::{AllocError, Global};
use std::marker::Model;
use std::sync::ledger::Ledger;

/// The simplex method in one stage of a problem: a basis whose state is lexicographically feasible, how many pivots the
/// stage has had, the number of the column that was picked last (the cursor), the candidate queue, and room to work in.
///
/// In every call `p` is the problem that the engine was made for. After a `Passed` only `pivots` is called again. Only
/// `new` takes memory.
#[derive(Drop)]
pub struct Engine<B: Basis> {
    basis: B,
    room: Room,
    pivots: u64,
    cursor: u32,
    queue: Queue,
}

impl<B: Basis> Model for Engine<B> {
    ghost use Rattle.nf_engine.specs.Point.{Kept};

    ghost Value = { Kept B };

    ghost view = { λ e. record { basis = e.basis; pivots = e.pivots; pricing = record { cursor = e.cursor; queue = e.queue }; room = e.room } };
}

impl<B: Basis> Engine<B> {
    /// An engine for a basis whose state is lexicographically feasible, with so many pivots, this cursor and
    /// this queue.
    /// `AllocError` where there is no memory for its work lists.
    pub fn new(
        alloc: Global,
        p: &Problem,
        basis: B,
        pivots: u64,
        cursor: u32,
        queue: Queue,
    ) -> Result<Engine<B>, AllocError>
        requires numbers { B.HasNumbers p.now basis }
        requires feasible { IsFeasibleState p.now (B.standing basis) }
        ensures { IfOk result (λ e. e ≡ record { basis = basis; pivots = pivots; pricing = pricing cursor queue; room = rows_of p.now (B.standing basis) }) }
    {
        let rows = rows_in(p, basis.state());
        Ok(Engine {
            basis,
            room: Room::new(alloc, rows)?,
            pivots,
            cursor,
            queue,
        })
    }

    /// How many pivots the stage has had, flips among them. After a `Passed` it is the count at the state from which the
    /// operation arises that passed.
    pub fn pivots(&self) -> u64
        ensures { result ≡ self.now.pivots }
    {
        self.pivots
    }

    /// The number of the column that was picked last, and 0 where none was: given columns by number, then the slack of
    /// row i as number `columns + i - nodes`.
    pub fn cursor(&self) -> u32
        ensures { result ≡ self.now.pricing.cursor }
    {
        self.cursor
    }

    /// The candidate queue.
    pub fn queue(&self) -> &Queue
        ensures { result.now ≡ self.now.pricing.queue }
    {
        &self.queue
    }

    /// Removes all numbers from the queue. Nothing else changes, and it takes no memory.
    pub fn empty_queue(&mut self)
        ensures { self.new ≡ record { basis = self.old.basis; pivots = self.old.pivots; pricing = pricing self.old.pricing.cursor []; room = self.old.room } }
    {
        self.queue.clear();
    }

    /// The basis.
    pub fn basis(&self) -> &B
        ensures { result.now ≡ self.now.basis }
    {
        &self.basis
    }

    /// The basis alone.
    pub fn into_basis(self) -> B
        ensures { result ≡ self.basis }
    {
        self.basis
    }

    /// The basis and the queue.
    pub fn into_parts(self) -> (B, Queue)
        ensures basis { result.0 ≡ self.basis }
        ensures queue { result.1 ≡ self.pricing.queue }
    {
        (self.basis, self.queue)
    }

    /// One step: the rule picks an eligible column, the ratio test says what limits its move, and a pivot or a flip gives
    /// the next state, which is the only one. It makes the objective vector lexicographically less and keeps the state
    /// lexicographically feasible; the count rises by one, the cursor becomes the picked column's number, and the
    /// queue the next one. `Best`,
    /// `NoFlow` and `NoBound` come exactly where the state has ended so, and then nothing changes.
    ///
    /// `Passed` only where an operation that arises from the state passes 128 bits. With t inverse columns that the
    /// ratio test looks at, at most `8 (1 + t) (u + 6 w)` steps, u the basis's unit and w the size of the problem in the
    /// stage.
    pub fn step<L: Ledger>(
        &mut self,
        p: &Problem,
        rule: Rule,
        steps: &mut Steps<L>,
    ) -> Result<Moved, Passed>
        requires numbers { B.HasNumbers p.now self.old.basis }
        requires feasible { IsFeasibleState p.now (B.standing self.old.basis) }
        requires room { self.old.room ≡ rows_of p.now (B.standing self.old.basis) }
        requires count { self.old.pivots < 2 ^ 63 }
        requires size { HasSize rule }
        ensures numbers { IfOk result (λ _. B.HasNumbers p.now self.new.basis) }
        ensures feasible { IfOk result (λ _. IsFeasibleState p.now (B.standing self.new.basis)) }
        ensures room { IfOk result (λ _. self.new.room ≡ rows_of p.now (B.standing self.new.basis)) }
        ensures step { IfOk result (λ m. IsStep p.now rule (point B.standing self.old) m (point B.standing self.new)) }
        ensures count { IfErr result (λ _. self.new.pivots ≡ self.old.pivots) }
        ensures passed { IfErr result (PassesIn (StateTerms p.now (B.standing self.old.basis))) }
        ensures cost { (t : ℕ) → IsTestedBy p.now rule (B.standing self.old.basis) self.old.pricing t → steps.new ≤ steps.old + 8 * (1 + t) * (B.unit p.now (B.standing self.old.basis).stage + 6 * size p.now (B.standing self.old.basis).stage) }
    {
        let due = look(
            p,
            &mut self.basis,
            rule,
            self.cursor,
            &mut self.queue,
            true,
            false,
            &mut self.room,
            steps,
        )?;
        match due.turn {
            Turn::Ended(ended) => Ok(ended),
            Turn::Changes(change) => {
                let moved = self.make(p, change, steps)?;
                Ok(moved)
            }
        }
    }

    /// Steps until a halt is due: `Ended` where the state has ended, `Limit` where it has not and the stage has had
    /// `most` pivots or more, and behind a step `Pause` where a pause is due, or else `Feasible` where the artificials
    /// have just come to 0 and that is asked for.
    ///
    /// `Passed` only where an operation passes 128 bits that arises from the state at the count that `pivots` then
    /// answers.
    pub fn run<L: Ledger>(
        &mut self,
        p: &Problem,
        rule: Rule,
        most: u64,
        pauses: &Pauses,
        steps: &mut Steps<L>,
    ) -> Result<Halt, Passed>
        requires numbers { B.HasNumbers p.now self.old.basis }
        requires feasible { IsFeasibleState p.now (B.standing self.old.basis) }
        requires room { self.old.room ≡ rows_of p.now (B.standing self.old.basis) }
        requires most { most ≤ 2 ^ 63 }
        requires size { HasSize rule }
        ensures numbers { IfOk result (λ _. B.HasNumbers p.now self.new.basis) }
        ensures feasible { IfOk result (λ _. IsFeasibleState p.now (B.standing self.new.basis)) }
        ensures room { IfOk result (λ _. self.new.room ≡ rows_of p.now (B.standing self.new.basis)) }
        ensures run { IfOk result (λ h. RunsTo p.now rule most pauses.now (point B.standing self.old) h (point B.standing self.new)) }
        ensures passed { IfErr result (PassesAt p.now rule most pauses.now (point B.standing self.old) self.new.pivots) }
    {
        let mut met = false;
        'turns: loop {
            if let Some(halt) = self.turn(p, rule, most, pauses, &mut met, steps)? {
                return Ok(halt);
            }
        }
    }

    // One turn of a run: a step, and the halt that is due in its place or behind it. `met` says that the artificials are
    // known to sum to 0: no step brings them up again.
    fn turn<L: Ledger>(
        &mut self,
        p: &Problem,
        rule: Rule,
        most: u64,
        pauses: &Pauses,
        met: &mut bool,
        steps: &mut Steps<L>,
    ) -> Result<Option<Halt>, Passed>
        requires numbers { B.HasNumbers p.now self.old.basis }
        requires feasible { IsFeasibleState p.now (B.standing self.old.basis) }
        requires room { self.old.room ≡ rows_of p.now (B.standing self.old.basis) }
        requires most { most ≤ 2 ^ 63 }
        requires size { HasSize rule }
        requires met { met.old ≡ true → TellsShort p.now (B.standing self.old.basis) false }
        ensures numbers { IfOk result (λ _. B.HasNumbers p.now self.new.basis) }
        ensures feasible { IfOk result (λ _. IsFeasibleState p.now (B.standing self.new.basis)) }
        ensures room { IfOk result (λ _. self.new.room ≡ rows_of p.now (B.standing self.new.basis)) }
        ensures met { IfOk result (λ _. met.new ≡ true → TellsShort p.now (B.standing self.new.basis) false) }
        ensures turn { IfOk result (λ h. IsTurnTo p.now rule most pauses.now (point B.standing self.old) h (point B.standing self.new)) }
        ensures passed { IfErr result (PassesAt p.now rule most pauses.now (point B.standing self.old) self.new.pivots) }
    {
        let moves = may_move(self.pivots, most);
        let due = look(
            p,
            &mut self.basis,
            rule,
            self.cursor,
            &mut self.queue,
            moves,
            *met,
            &mut self.room,
            steps,
        )?;
        match due.turn {
            Turn::Ended(ended) => Ok(Some(Halt::Ended(ended))),
            Turn::Changes(change) => {
                if !moves {
                    return Ok(Some(Halt::Limit));
                }
                self.make(p, change, steps)?;
                *met = !due.short;
                let halt = halt_due(p, &self.basis, self.pivots, pauses, due.short);
                Ok(halt)
            }
        }
    }

    // Makes the change that is due, and counts it. The queue is the next one already.
    fn make<L: Ledger>(
        &mut self,
        p: &Problem,
        change: Change,
        steps: &mut Steps<L>,
    ) -> Result<Moved, Passed>
        requires numbers { B.HasNumbers p.now self.old.basis }
        requires feasible { IsFeasibleState p.now (B.standing self.old.basis) }
        requires room { self.old.room ≡ rows_of p.now (B.standing self.old.basis) }
        requires count { self.old.pivots < 2 ^ 63 }
        requires due { (rule : RuleName) × ((at : PricingState) × IsDue p.now rule (B.standing self.old.basis) at (B.slots self.old.basis) change self.old.pricing) }
        ensures numbers { IfOk result (λ _. B.HasNumbers p.now self.new.basis) }
        ensures feasible { IfOk result (λ _. IsFeasibleState p.now (B.standing self.new.basis)) }
        ensures room { IfOk result (λ _. self.new.room ≡ rows_of p.now (B.standing self.new.basis)) }
        ensures made { IfOk result (λ m. (rule : RuleName) (at : PricingState) → IsDue p.now rule (B.standing self.old.basis) at (B.slots self.old.basis) change self.old.pricing → IsMade p.now rule (record { standing = B.standing self.old.basis; pivots = self.old.pivots; pricing = at }) m (point B.standing self.new)) }
        ensures count { IfErr result (λ _. self.new.pivots ≡ self.old.pivots) }
        ensures passed { IfErr result (PassesIn (StateTerms p.now (B.standing self.old.basis))) }
        ensures cost { steps.new ≤ steps.old + 4 * B.unit p.now (B.standing self.old.basis).stage }
    {
        match change {
            Change::Pivot { entering, slot, to } => {
                let leaving = self.basis.basic_at(slot);
                self.basis.pivot(p, entering, slot, to, steps)?;
                self.note(p, entering);
                Ok(Moved::Pivoted { entering, leaving })
            }
            Change::Flip(column) => {
                self.basis.flip(p, column, steps)?;
                self.note(p, column);
                Ok(Moved::Flipped(column))
            }
        }
    }

    // Counts a step in which this column entered.
    fn note(&mut self, p: &Problem, column: Col)
        requires present { (s : Standing) × IsPresent p.now s column }
        requires count { self.old.pivots < 2 ^ 63 }
        ensures { self.new ≡ record { basis = self.old.basis; pivots = suc self.old.pivots; pricing = pricing (suc (number p.now column)) self.old.pricing.queue; room = self.old.room } }
    {
        self.pivots += 1;
        self.cursor = number_of(p, column);
    }
}

// Whether a stage that has had so many pivots may have another one.
fn may_move(pivots: u64, most: u64) -> bool
    ensures yes { result ≡ true → pivots < most }
    ensures no { result ≡ false → most ≤ pivots }
{
    pivots < most
}

// The halt that is due behind a step, where `short` says whether the artificials summed to more than 0 before it.
fn halt_due<B: Basis>(
    p: &Problem,
    basis: &B,
    pivots: u64,
    pauses: &Pauses,
    short: bool,
) -> Option<Halt>
    requires numbers { B.HasNumbers p.now basis.now }
    requires feasible { IsFeasibleState p.now (B.standing basis.now) }
    ensures due { IsHaltDue p.now pauses.now short pivots (B.standing basis.now) result }
{
    if pauses.every != 0 && pivots % pauses.every == 0 {
        return Some(Halt::Pause);
    }
    if pauses.feasible && short {
        let left = is_short(p, basis, false);
        if !left {
            return Some(Halt::Feasible);
        }
    }
    None
}
