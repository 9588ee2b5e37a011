// Walks of single steps, with every number checked after each.
ghost use Rattle.std.specs.Prelude.{◌≡◌, ◌<◌, IfOk};
ghost use Rattle.nf_simplex.specs.StageOf.{StageOne};
ghost use Rattle.nf_simplex.specs.Standing.{IsFeasibleState};
ghost use Rattle.nf_price.specs.Rules.{HasSize};

use crate::networks::{Random, network};
use crate::plain::check_numbers;
use crate::start::open;
use nf_basis::{Basis, DenseBasis};
use nf_engine::{Engine, Moved};
use nf_frac::Steps;
use nf_price::{Queue, Rule};
use nf_prob::Problem;
use nf_tree::Tree;
use std::alloc::Global;
use std::marker::Brand;
use std::sync::ledger::{Blank, Ledger};
use std::test::Fail;

// Where a walk stands.
#[derive(Drop)]
struct Walk<B: Basis> {
    basis: B,
    pivots: u64,
    cursor: u32,
    queue: Queue,
}

// One step, and whether it moved. Its numbers are checked behind it.
fn step<B: Basis, L: Ledger>(
    alloc: Global,
    p: &Problem,
    walk: Walk<B>,
    rule: Rule,
    steps: &mut Steps<L>,
) -> Result<(bool, Walk<B>), Fail>
    requires numbers { B.HasNumbers p.now walk.basis }
    requires feasible { IsFeasibleState p.now (B.standing walk.basis) }
    requires size { HasSize rule }
    ensures numbers { IfOk result (λ r. B.HasNumbers p.now r.1.basis) }
    ensures feasible { IfOk result (λ r. IsFeasibleState p.now (B.standing r.1.basis)) }
{
    let Walk {
        basis,
        pivots,
        cursor,
        queue,
    } = walk;
    if pivots > 100 {
        return Err(Fail::new("too many pivots"));
    }
    let mut engine = Engine::new(alloc, p, basis, pivots, cursor, queue)?;
    let moved = engine.step(p, rule, steps)?;
    let (pivots, cursor) = (engine.pivots(), engine.cursor());
    let (mut basis, queue) = engine.into_parts();
    check_numbers(alloc, p, &mut basis, steps)?;
    let goes_on = matches!(&moved, Moved::Pivoted { .. } | Moved::Flipped(_));
    Ok((
        goes_on,
        Walk {
            basis,
            pivots,
            cursor,
            queue,
        },
    ))
}

// Up to 12 steps, each by a rule drawn at random, and how many moved.
fn goes<B: Basis, L: Ledger>(
    alloc: Global,
    p: &Problem,
    random: &mut Random,
    blank: Blank,
) -> Result<u32, Fail>
    requires takes { B.Takes p.now StageOne }
    requires name { blank.name ≡ L.name }
    requires parts { blank.parts ≡ L.parts }
    requires some { 0 < blank.parts }
{
    let mut steps = Steps::<L>::new(blank);
    let mut basis = open::<B, L>(alloc, p, &mut steps)?;
    check_numbers(alloc, p, &mut basis, &mut steps)?;
    let mut walk = Walk {
        basis,
        pivots: 0,
        cursor: 0,
        queue: Queue::new(alloc)?,
    };
    for taken in 0..12 {
        let (goes_on, next) = step(alloc, p, walk, random.rule(), &mut steps)?;
        walk = next;
        if !goes_on {
            return Ok(taken);
        }
    }
    Ok(12)
}

// A walk on a random network.
fn walked(alloc: Global, seed: u64) -> Result<u32, Fail> {
    let mut random = Random::new(seed);
    let p = network(alloc, &mut random, seed % 2 == 0)?;
    if p.nodes() > 4 {
        return Err(Fail::new("too many nodes"));
    }
    goes::<DenseBasis, Brand>(alloc, &p, &mut random, Blank::new(1))
}

// The same walk over the spanning tree.
fn walked_over_a_tree(alloc: Global, seed: u64) -> Result<u32, Fail> {
    let mut random = Random::new(seed);
    let p = network(alloc, &mut random, seed % 2 == 0)?;
    goes::<Tree, Brand>(alloc, &p, &mut random, Blank::new(1))
}

#[test]
fn walks(rt: HostRuntime) -> Result<(), Fail> {
    let mut moves = 0u32;
    for seed in 0..200u64 {
        moves = moves.saturating_add(walked(rt.alloc(), seed)?);
    }
    assert!(rt; moves >= 200, "only {moves} steps");
    Ok(())
}

// The next state is determined, so both kinds of basis walk the same way; all numbers of the tree are computed again.
#[test]
fn trees_walk_the_same_way(rt: HostRuntime) -> Result<(), Fail> {
    for seed in 0..200u64 {
        let over_the_inverse = walked(rt.alloc(), seed)?;
        let over_the_tree = walked_over_a_tree(rt.alloc(), seed)?;
        assert_eq!(rt; over_the_tree, over_the_inverse, "seed {seed}");
    }
    Ok(())
}
