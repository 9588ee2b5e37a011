// Matrices of two rows, worked by hand: what they solve to after a replacement, what is singular, and ranks.
ghost use Rattle.std.specs.Prelude.{◌≡◌, ◌*◌, ◌<◌, ◌≤◌, length};

use nf_frac::{Frac, Steps, read_frac};
use nf_sums::is_zero;
use nf_work::{Rank, Work, WorkFault, rank_check};
use std::alloc::Global;
use std::marker::Brand;
use std::sync::ledger::{Blank, Ledger};
use std::test::Fail;

// One change of the identity, in place 0.
#[derive(Clone, Copy)]
enum Change {
    Column([i64; 2]),
    RowColumn([i64; 2], [i64; 2]),
}

fn pair(numbers: [i64; 2]) -> [Frac; 2] {
    [Frac::from_whole(numbers[0]), Frac::from_whole(numbers[1])]
}

// Changes the identity, and says whether the new matrix has an inverse.
fn change_identity<L: Ledger>(
    work: &mut Work,
    change: Change,
    steps: &mut Steps<L>,
) -> Result<bool, Fail>
    requires size { length work.old ≡ 2 }
    ensures size { length work.new ≡ 2 }
{
    let answer = match change {
        Change::Column(column) => work.replace_column(0, &pair(column), steps),
        Change::RowColumn(row, column) => {
            let row = pair(row);
            if is_zero(row[0]) {
                return Err(Fail::new("the row is 0 in place 0"));
            }
            work.replace_row_column(&row, 0, &pair(column), steps)
        }
    };
    match answer {
        Ok(()) => Ok(true),
        Err(WorkFault::Singular) => Ok(false),
        Err(WorkFault::Passed(_)) => Err(Fail::new("a small number overflows")),
    }
}

// The weights and then the multipliers that the changed matrix solves to, or none if it is singular.
fn solve<L: Ledger>(
    alloc: Global,
    change: Change,
    right: [i64; 2],
    blank: Blank,
) -> Result<Option<[Frac; 4]>, Fail>
    requires name { blank.name ≡ L.name }
    requires parts { blank.parts ≡ L.parts }
    requires some { 0 < blank.parts }
{
    let mut steps = Steps::<L>::new(blank);
    let mut work = Work::new(alloc, 2)?;
    if !change_identity(&mut work, change, &mut steps)? {
        return Ok(None);
    }
    let (mut weights, mut multipliers) = (pair([0, 0]), pair([0, 0]));
    work.solve(&pair(right), &mut weights, &mut steps)?;
    work.solve_left(&pair(right), &mut multipliers, &mut steps)?;
    Ok(Some([weights[0], weights[1], multipliers[0], multipliers[1]]))
}

fn solved(alloc: Global, change: Change, right: [i64; 2]) -> Result<Option<[Frac; 4]>, Fail> {
    solve::<Brand>(alloc, change, right, Blank::new(1))
}

#[test]
fn solves_after_a_replacement(rt: HostRuntime) -> Result<(), Fail> {
    for (change, right, expected) in [
        (Change::Column([2, 1]), [1, 0], ["1/2", "-1/2", "1/2", "0"]),
        // 2 a = 3 and a + b = 5; 2 y + z = 3 and z = 5.
        (Change::Column([2, 1]), [3, 5], ["3/2", "7/2", "-1", "5"]),
        (
            Change::RowColumn([1, 1], [2, 0]),
            [1, 1],
            ["1", "1", "1/2", "3/2"],
        ),
        // The matrix has the rows (3, -1/2) and (1, 1).
        (
            Change::RowColumn([2, 1], [3, 1]),
            [7, 0],
            ["2", "-2", "2", "1"],
        ),
    ] {
        let Some(found) = solved(rt.alloc(), change, right)? else {
            return Err(Fail::new("the matrix is not singular"));
        };
        for (number, text) in found.iter().zip(expected.iter()) {
            assert_eq!(rt; *number, read_frac(text.as_bytes())?);
        }
    }
    Ok(())
}

#[test]
fn refuses_singular_matrices(rt: HostRuntime) -> Result<(), Fail> {
    for change in [
        Change::Column([0, 5]),
        Change::Column([0, 0]),
        Change::RowColumn([1, 1], [1, -1]),
    ] {
        assert!(rt; solved(rt.alloc(), change, [1, 0])?.is_none());
    }
    Ok(())
}

// The first dependent column and the weights of at most two columns before it.
#[derive(Clone, Copy, Debug, PartialEq, Eq)]
struct Combination {
    at: u32,
    first: Frac,
    second: Frac,
}

fn number(numbers: &[Frac], at: usize) -> Frac {
    match numbers.get(at) {
        Some(number) => *number,
        None => Frac::zero(),
    }
}

// The combination of a rank, or none if the columns are independent.
fn combination_of(rank: &Rank) -> Option<Combination> {
    match rank {
        Rank::Full(_) => None,
        Rank::Dependent { at, weights } => Some(Combination {
            at: *at,
            first: number(weights.items(), 0),
            second: number(weights.items(), 1),
        }),
    }
}

fn whole_numbers(alloc: Global, numbers: &[i64]) -> Result<Vec<Frac>, Fail> {
    let mut list = Vec::new(alloc);
    for number in numbers {
        list.push(Frac::from_whole(*number))?;
    }
    Ok(list)
}

fn rank<L: Ledger>(
    alloc: Global,
    columns: &[Frac],
    size: u32,
    blank: Blank,
) -> Result<Option<Combination>, Fail>
    requires name { blank.name ≡ L.name }
    requires parts { blank.parts ≡ L.parts }
    requires some { 0 < blank.parts }
    requires places { length columns.now ≡ size * size }
{
    let mut steps = Steps::<L>::new(blank);
    let rank = rank_check(alloc, columns, size, &mut steps)?;
    Ok(combination_of(&rank))
}

// The first dependent of columns of `size` numbers each.
fn first_dependent(alloc: Global, columns: &[i64], size: u32) -> Result<Option<Combination>, Fail>
    requires few { size ≤ 3 }
{
    let numbers = whole_numbers(alloc, columns)?;
    if numbers.len() != (size * size) as usize {
        return Err(Fail::new("as many columns as numbers in each"));
    }
    rank::<Brand>(alloc, numbers.as_slice(), size, Blank::new(1))
}

#[test]
fn names_the_first_dependent_column(rt: HostRuntime) -> Result<(), Fail> {
    let cases: [(&[i64], u32, u32, &str, &str); 5] = [
        (&[1, 2, 2, 4], 2, 1, "2", "0"),
        (&[0, 0, 1, 0], 2, 0, "0", "0"),
        (&[1, 1, 0, 2, 2, 0, 3, 3, 0], 3, 1, "2", "0"),
        (&[1, 0, 2, 0, 1, 1, 2, -3, 1], 3, 2, "2", "-3"),
        (&[0, 2, 0, 0, 0, 4, 0, 3, 5], 3, 2, "3/2", "5/4"),
    ];
    for (columns, size, at, first, second) in cases {
        let expected = Combination {
            at,
            first: read_frac(first.as_bytes())?,
            second: read_frac(second.as_bytes())?,
        };
        assert_eq!(rt; first_dependent(rt.alloc(), columns, size)?, Some(expected));
    }
    Ok(())
}

#[test]
fn finds_independent_columns(rt: HostRuntime) -> Result<(), Fail> {
    let cases: [(&[i64], u32); 4] = [
        (&[1, 0, 0, 1], 2),
        (&[0, 1, 1, 0], 2),
        (&[7], 1),
        (&[0, 2, 0, 0, 0, 4, 1, 3, 5], 3),
    ];
    for (columns, size) in cases {
        assert_eq!(rt; first_dependent(rt.alloc(), columns, size)?, None);
    }
    Ok(())
}
