// Random replacements, each compared with a plain inverse.
ghost use Rattle.std.specs.Prelude.{◌≡◌, ◌<◌, ◌≤◌, length, IfOk};

use crate::plain::{
    Column, Matrix, identity, inverse, times, times_left, with_column, with_row, zeros,
};
use nf_frac::{Frac, Steps};
use nf_sums::is_zero;
use nf_work::{Work, WorkFault};
use std::alloc::Global;
use std::marker::Brand;
use std::sync::ledger::{Blank, Ledger};
use std::test::Fail;

/// A linear congruential generator modulo 2^64 (D. E. Knuth, The Art of Computer Programming, volume 2, section 3.3.4).
/// Only its high bits are used.
#[derive(Drop)]
struct Random {
    state: u64,
}

impl Random {
    /// A number less than n.
    fn below(&mut self, n: u32) -> u32
        requires some { 0 < n }
        ensures { result < n }
    {
        self.state = self
            .state
            .wrapping_mul(6_364_136_223_846_793_005)
            .wrapping_add(1_442_695_040_888_963_407);
        ((self.state >> 33) % u64::from(n)) as u32
    }

    /// Three whole numbers from -reach to reach; every fourth or so is 0.
    fn column(&mut self, reach: u32) -> Column
        requires few { reach ≤ 100 }
    {
        let mut numbers = zeros();
        for place in 0..3 {
            if self.below(4) > 0 {
                let drawn = self.below(2 * reach + 1);
                numbers[place] = Frac::from_whole(i64::from(drawn) - i64::from(reach));
            }
        }
        numbers
    }
}

// Fails unless the working inverse solves from both sides as the plain inverse does.
fn check_inverse<L: Ledger>(
    work: &Work,
    plain: &Matrix,
    random: &mut Random,
    steps: &mut Steps<L>,
) -> Result<(), Fail>
    requires size { length work.now ≡ 3 }
{
    let given = random.column(5);
    let mut found = zeros();
    work.solve(&given, &mut found, steps)?;
    if found != times(plain, &given, steps)? {
        return Err(Fail::new("the weights are not those of the plain inverse"));
    }
    work.solve_left(&given, &mut found, steps)?;
    if found != times_left(&given, plain, steps)? {
        return Err(Fail::new("the multipliers are not those of the plain inverse"));
    }
    Ok(())
}

// One replacement, of a column alone or of a row and a column. None if the new matrix is singular.
fn replace<L: Ledger>(
    work: &mut Work,
    matrix: &Matrix,
    random: &mut Random,
    steps: &mut Steps<L>,
) -> Result<Option<Matrix>, Fail>
    requires size { length work.old ≡ 3 }
    ensures size { IfOk result (λ _. length work.new ≡ 3) }
{
    let at = random.below(3);
    let column = random.column(3);
    let row = random.column(2);
    let place = at as usize;
    let (answer, base) = if is_zero(row[place]) {
        (work.replace_column(at, &column, steps), *matrix)
    } else {
        let base = with_row(matrix, &row, place, steps)?;
        (work.replace_row_column(&row, at, &column, steps), base)
    };
    let changed = with_column(&base, place, &column);
    match (answer, inverse(&changed, steps)?) {
        (Ok(()), Some(plain)) => {
            check_inverse(work, &plain, random, steps)?;
            Ok(Some(changed))
        }
        (Err(WorkFault::Singular), None) => Ok(None),
        _ => Err(Fail::new("one inverse is there, and the other is not")),
    }
}

// At most ten replacements, one after the other: how many there were.
fn walk<L: Ledger>(alloc: Global, seed: u64, blank: Blank) -> Result<u32, Fail>
    requires name { blank.name ≡ L.name }
    requires parts { blank.parts ≡ L.parts }
    requires some { 0 < blank.parts }
{
    let mut steps = Steps::<L>::new(blank);
    let mut random = Random { state: seed };
    let mut work = Work::new(alloc, 3)?;
    let mut matrix = identity();
    for replaced in 0..10 {
        let Some(changed) = replace(&mut work, &matrix, &mut random, &mut steps)? else {
            return Ok(replaced);
        };
        matrix = changed;
    }
    Ok(10)
}

fn walked(alloc: Global, seed: u64) -> Result<u32, Fail> {
    walk::<Brand>(alloc, seed, Blank::new(1))
}

#[test]
fn follows_random_replacements(rt: HostRuntime) -> Result<(), Fail> {
    // How many walks have met no singular matrix.
    let mut whole = 0_u32;
    for seed in 0..200 {
        if walked(rt.alloc(), seed)? == 10 {
            whole += 1;
        }
    }
    assert!(rt; 20 <= whole && whole <= 180);
    Ok(())
}
