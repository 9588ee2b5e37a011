// Random networks, the same in every run.
ghost use Rattle.std.specs.Prelude.{◌≡◌, suc, ◌<◌, ◌≤◌, length, IfOk};
ghost use Rattle.nf_model.specs.Program.{IsAtMost};
ghost use Rattle.nf_price.specs.Rules.{HasSize};
ghost use Rattle.nf_prob.specs.Building.{empty_program};

use nf_frac::Frac;
use nf_price::Rule;
use nf_prob::{Problem, ProblemBuilder};
use std::alloc::Global;
use std::cmp::Ordering;
use std::test::Fail;

/// A linear congruential generator modulo 2^64 (D. E. Knuth, The Art of Computer Programming, volume 2, section 3.3.4).
/// Only its high bits are used.
#[derive(Drop)]
pub(crate) struct Random {
    state: u64,
}

impl Random {
    pub(crate) fn new(seed: u64) -> Random {
        Random { state: seed }
    }

    /// A number less than n.
    pub(crate) fn below(&mut self, n: u32) -> u32
        requires some { 0 < n }
        ensures { result < n }
    {
        self.state = self
            .state
            .wrapping_mul(6_364_136_223_846_793_005)
            .wrapping_add(1_442_695_040_888_963_407);
        ((self.state >> 33) % u64::from(n)) as u32
    }

    /// A whole number from `least` on, one of n.
    fn whole(&mut self, least: i32, n: u32) -> Frac
        requires some { 0 < n }
    {
        Frac::from_whole(i64::from(least) + i64::from(self.below(n)))
    }

    /// A rule of pricing.
    pub(crate) fn rule(&mut self) -> Rule
        ensures size { HasSize result }
    {
        match self.below(5) {
            0 => Rule::First,
            1 => Rule::Best,
            2 => Rule::Bland,
            _ => self.queue_rule(),
        }
    }

    /// The rule QUEUE, with a size from 1 to 4.
    fn queue_rule(&mut self) -> Rule
        ensures size { HasSize result }
    {
        Rule::Queue {
            size: 1 + self.below(4),
        }
    }
}

// An upper bound that is not below the lower one, or none.
fn capacity(lower: Frac, drawn: Frac) -> Option<Frac>
    ensures { IsAtMost result lower }
{
    match lower.cmp(drawn) {
        Ordering::Less => Some(drawn),
        Ordering::Equal => Some(lower),
        Ordering::Greater => None,
    }
}

// Adds nodes whose supplies sum to 0 where `balanced`.
fn add_nodes(
    builder: &mut ProblemBuilder,
    random: &mut Random,
    nodes: u32,
    balanced: bool,
) -> Result<(), Fail>
    requires empty { builder.old ≡ empty_program builder.old.maximizes }
    requires few { nodes ≤ 4 }
    ensures nodes { IfOk result (λ _. builder.new.nodes ≡ nodes) }
    ensures rows { IfOk result (λ _. length builder.new.rows ≡ nodes) }
    ensures columns { IfOk result (λ _. length builder.new.columns ≡ 0) }
    ensures arcs { IfOk result (λ _. builder.new.arcs ≡ 0) }
{
    let mut before = 0;
    for i in 0..nodes {
        let next = if balanced && i + 1 == nodes {
            0
        } else {
            random.below(4)
        };
        builder.add_node(Frac::from_whole(i64::from(next) - i64::from(before)))?;
        before = next;
    }
    Ok(())
}

// Adds an arc between random nodes, which may be one node, to a program with so many arcs.
fn add_arc(
    builder: &mut ProblemBuilder,
    random: &mut Random,
    nodes: u32,
    before: u32,
) -> Result<(), Fail>
    requires some { 0 < nodes }
    requires few { nodes ≤ 4 }
    requires few_before { before < 6 }
    requires nodes { builder.old.nodes ≡ nodes }
    requires rows { length builder.old.rows ≡ nodes }
    requires columns { length builder.old.columns ≡ before }
    requires arcs { builder.old.arcs ≡ before }
    ensures nodes { IfOk result (λ _. builder.new.nodes ≡ nodes) }
    ensures rows { IfOk result (λ _. length builder.new.rows ≡ nodes) }
    ensures columns { IfOk result (λ _. length builder.new.columns ≡ suc before) }
    ensures arcs { IfOk result (λ _. builder.new.arcs ≡ suc before) }
{
    let (tail, first, second) = (
        random.below(nodes) + 1,
        random.below(nodes) + 1,
        random.below(nodes) + 1,
    );
    // few loops
    let head = if first == tail { second } else { first };
    let cost = random.whole(-2, 9);
    let lower = random.whole(-1, 3);
    let upper = capacity(lower, random.whole(-3, 16));
    builder.add_column(tail, head, cost, Some(lower), upper)?;
    Ok(())
}

fn add_arcs(
    builder: &mut ProblemBuilder,
    random: &mut Random,
    nodes: u32,
    arcs: u32,
) -> Result<(), Fail>
    requires some { 0 < nodes }
    requires few { nodes ≤ 4 }
    requires few_arcs { arcs ≤ 6 }
    requires nodes { builder.old.nodes ≡ nodes }
    requires rows { length builder.old.rows ≡ nodes }
    requires columns { length builder.old.columns ≡ 0 }
    requires arcs { builder.old.arcs ≡ 0 }
{
    for before in 0..arcs {
        add_arc(builder, random, nodes, before)?;
    }
    Ok(())
}

/// A network of 2 to 4 nodes and 1 to 6 arcs. Its supplies sum to 0 where `balanced`.
pub(crate) fn network(alloc: Global, random: &mut Random, balanced: bool) -> Result<Problem, Fail> {
    let mut builder = ProblemBuilder::new(alloc, false);
    let (nodes, arcs) = (
        random.below(3) + 2,
        random.below(6).max(random.below(6)) + 1,
    );
    add_nodes(&mut builder, random, nodes, balanced)?;
    add_arcs(&mut builder, random, nodes, arcs)?;
    Ok(builder.finish()?)
}
