//! The statements of a program, one by one.
ghost use Rattle.std.specs.Option.{option_copied};
ghost use Rattle.std.specs.Prelude.{true, ◌≡◌, ◌<◌, ◌≤◌, ℕ, List, OnOk, IfOk, IfErr};
ghost use Rattle.nf_simplex.specs.StageOf.{StageOne};
ghost use Rattle.nf_run.specs.Setting.{IsPlain};
ghost use Rattle.nf_run.specs.Steps.{IsObeyFault, IsReady, Obeys, session_at};
ghost use Rattle.nf_run.specs.Stops.{ListsAll, StopsWith, are_standing, is_standing};

use crate::ending::end;
use crate::event::RunFault;
use crate::line::halt_text;
use crate::opening::open;
use crate::run::run;
use crate::session::{InStage, Session, StagePoint};
use nf_basis::Basis;
use nf_frac::Steps;
use nf_io::{Library, PutFault, Sink, write_all};
use nf_price::Queue;
use nf_prob::Problem;
use nf_program::{SessionOptions, Statement};
use nf_tree::Tree;
use std::alloc::Global;
use std::marker::Brand;
use std::sync::ledger::{Blank, Ledger};

/// Obeys the statements of a program on a problem, from the first state of stage one, and writes the listing statement
/// by statement. Today they are RUN, and QUIT, which is the last one. At the end, whether there is a QUIT or not, the
/// certificate of the last halt is stored under the name `certout`, where the program gives one.
///
/// A RUN makes one step of the simplex method after another until a halt is due, and writes it with the pivots so far:
/// `OPTIMAL` with the cost of the flows, `INFEASIBLE` with the gap or `UNBOUNDED` with the rate, once the certificate
/// that proves it has been checked; or the limit or the pause that the program has set. Where the problem has side rows or
/// nonarc variables, stage two starts where stage one has ended, if this is not infeasible, and the RUN goes on in it. Such
/// a problem has at most 1,000 rows. Stage one steps over the spanning tree of its basic columns, and stage two over a
/// whole inverse.
///
/// `Range` comes only where an operation passes 128 bits that arises from the state of this run after so many pivots of
/// the stage that it names; at the first pivot of stage two also from the last state of stage one;
/// `Write` only where the sink's faults rose, and then a front of the listing is written, or where the failed stores
/// rose, and then the listing of all statements is; `NoMemory` like the first. No name but `certout` is changed.
pub fn run_program<K: Sink, D: Library>(
    alloc: Global,
    p: &Problem,
    options: &SessionOptions,
    acts: &[Statement],
    certout: Option<&str>,
    listing: &mut K,
    library: &mut D,
) -> Result<(), RunFault>
    requires plain { IsPlain p.now }
    requires acts { are_standing acts.now ≡ true }
    ensures later { K.faults listing.old ≤ K.faults listing.new }
    ensures quiet { K.quiet listing.new ≡ K.quiet listing.old }
    ensures calm { K.quiet listing.old ≡ true → K.faults listing.new ≡ K.faults listing.old }
    ensures stores { D.store_faults library.old ≤ D.store_faults library.new }
    ensures fetches { D.fetch_faults library.new ≡ D.fetch_faults library.old }
    ensures misses { (q : List ℕ) → D.misses library.new q ≡ D.misses library.old q }
    ensures quiet_fetches { D.quiet_fetches library.new ≡ D.quiet_fetches library.old }
    ensures quiet_stores { D.quiet_stores library.new ≡ D.quiet_stores library.old }
    ensures calm_stores { D.quiet_stores library.old ≡ true → D.store_faults library.new ≡ D.store_faults library.old }
    ensures ok { OnOk result (ListsAll p.now options.now acts.now (option_copied certout.entry) (K.written listing.old) (K.written listing.new) (D.held library.old) (D.held library.new)) }
    ensures stops { IfErr result (StopsWith p.now options.now acts.now (option_copied certout.entry) (K.written listing.old) (K.written listing.new) (K.faults listing.old) (K.faults listing.new) (D.held library.old) (D.held library.new) (D.store_faults library.old) (D.store_faults library.new)) }
{
    obey_all::<Tree, Brand, K, D>(
        alloc,
        p,
        options,
        acts,
        certout,
        listing,
        library,
        Blank::new(1),
    )
}

/// Whether all statements are such as stand today.
pub fn are_standing(acts: &[Statement]) -> bool
    ensures { result ≡ are_standing acts.now }
{
    acts.iter().all(is_standing)
}

fn is_standing(act: &Statement) -> bool
    ensures { result ≡ is_standing act.now }
{
    matches!(act, Statement::Run | Statement::Quit)
}

// The same over any basis. The blank is one of the ledger, with a part; nobody reads the count of steps.
fn obey_all<B: Basis, L: Ledger, K: Sink, D: Library>(
    alloc: Global,
    p: &Problem,
    options: &SessionOptions,
    acts: &[Statement],
    certout: Option<&str>,
    listing: &mut K,
    library: &mut D,
    blank: Blank,
) -> Result<(), RunFault>
    requires takes { B.Takes p.now StageOne }
    requires plain { IsPlain p.now }
    requires acts { are_standing acts.now ≡ true }
    requires name { blank.name ≡ L.name }
    requires parts { blank.parts ≡ L.parts }
    requires some { 0 < L.parts }
    ensures later { K.faults listing.old ≤ K.faults listing.new }
    ensures quiet { K.quiet listing.new ≡ K.quiet listing.old }
    ensures calm { K.quiet listing.old ≡ true → K.faults listing.new ≡ K.faults listing.old }
    ensures stores { D.store_faults library.old ≤ D.store_faults library.new }
    ensures fetches { D.fetch_faults library.new ≡ D.fetch_faults library.old }
    ensures misses { (q : List ℕ) → D.misses library.new q ≡ D.misses library.old q }
    ensures quiet_fetches { D.quiet_fetches library.new ≡ D.quiet_fetches library.old }
    ensures quiet_stores { D.quiet_stores library.new ≡ D.quiet_stores library.old }
    ensures calm_stores { D.quiet_stores library.old ≡ true → D.store_faults library.new ≡ D.store_faults library.old }
    ensures ok { OnOk result (ListsAll p.now options.now acts.now (option_copied certout.entry) (K.written listing.old) (K.written listing.new) (D.held library.old) (D.held library.new)) }
    ensures stops { IfErr result (StopsWith p.now options.now acts.now (option_copied certout.entry) (K.written listing.old) (K.written listing.new) (K.faults listing.old) (K.faults listing.new) (D.held library.old) (D.held library.new) (D.store_faults library.old) (D.store_faults library.new)) }
{
    let Ok(queue) = Queue::new(alloc) else {
        return Err(RunFault::NoMemory);
    };
    let mut steps = Steps::<L>::new(blank);
    let basis = open::<B, L>(alloc, p, &mut steps)?;
    let mut session = Session {
        stage: InStage::One(StagePoint {
            basis,
            pivots: 0,
            cursor: 0,
            queue,
        }),
        proof: None,
    };
    'acts: for act in acts {
        session = obey(alloc, p, options, act, session, listing, &mut steps)?;
    }
    end(alloc, p, certout, &session.proof, listing, library)
}

// Obeys one statement.
fn obey<B: Basis, L: Ledger, K: Sink>(
    alloc: Global,
    p: &Problem,
    options: &SessionOptions,
    act: &Statement,
    session: Session<B>,
    listing: &mut K,
    steps: &mut Steps<L>,
) -> Result<Session<B>, RunFault>
    requires plain { IsPlain p.now }
    requires ready { IsReady p.now B.HasNumbers B.standing session.stage }
    ensures later { K.faults listing.old ≤ K.faults listing.new }
    ensures quiet { K.quiet listing.new ≡ K.quiet listing.old }
    ensures calm { K.quiet listing.old ≡ true → K.faults listing.new ≡ K.faults listing.old }
    ensures ready { IfOk result (λ s. IsReady p.now B.HasNumbers B.standing s.stage) }
    ensures obeys { IfOk result (λ s. Obeys p.now options.now act.now (session_at B.standing session) (session_at B.standing s) (K.written listing.old) (K.written listing.new)) }
    ensures fault { IfErr result (IsObeyFault p.now options.now act.now (session_at B.standing session).spot (K.written listing.old) (K.written listing.new) (K.faults listing.old) (K.faults listing.new)) }
{
    match act {
        Statement::Run => obey_run(alloc, p, options, session, listing, steps),
        _ => Ok(session),
    }
}

// Obeys a RUN.
fn obey_run<B: Basis, L: Ledger, K: Sink>(
    alloc: Global,
    p: &Problem,
    options: &SessionOptions,
    session: Session<B>,
    listing: &mut K,
    steps: &mut Steps<L>,
) -> Result<Session<B>, RunFault>
    requires plain { IsPlain p.now }
    requires ready { IsReady p.now B.HasNumbers B.standing session.stage }
    ensures later { K.faults listing.old ≤ K.faults listing.new }
    ensures quiet { K.quiet listing.new ≡ K.quiet listing.old }
    ensures calm { K.quiet listing.old ≡ true → K.faults listing.new ≡ K.faults listing.old }
    ensures ready { IfOk result (λ s. IsReady p.now B.HasNumbers B.standing s.stage) }
    ensures obeys { IfOk result (λ s. Obeys p.now options.now Statement.Run (session_at B.standing session) (session_at B.standing s) (K.written listing.old) (K.written listing.new)) }
    ensures fault { IfErr result (IsObeyFault p.now options.now Statement.Run (session_at B.standing session).spot (K.written listing.old) (K.written listing.new) (K.faults listing.old) (K.faults listing.new)) }
{
    let (line, session) = run(alloc, p, options, session, steps)?;
    let Ok(text) = halt_text(alloc, line, session.stage.counts()) else {
        return Err(RunFault::NoMemory);
    };
    match write_all(listing, text.bytes()) {
        Ok(()) => Ok(session),
        Err(PutFault::Failed) => Err(RunFault::Write),
        Err(PutFault::NoMemory) => Err(RunFault::NoMemory),
    }
}
