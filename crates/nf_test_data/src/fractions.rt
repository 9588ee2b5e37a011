ghost use Rattle.std.specs.Prelude.{◌≡◌, ◌<◌};

use nf_frac::{Amount, AmountFault, Frac, NumberFault, Op, Passed, Steps, read_amount, read_frac};
use std::alloc::Global;
use std::marker::Brand;
use std::sync::ledger::{Blank, Ledger};
use std::test::Fail;

const MOST: &str = "170141183460469231731687303715884105727";

#[test]
fn reads_and_writes_fractions(rt: HostRuntime) -> Result<(), Fail> {
    for (text, num, den) in [
        ("0", 0, 1),
        ("7", 7, 1),
        ("-12", -12, 1),
        ("1/3", 1, 3),
        ("-10/9", -10, 9),
        ("170141183460469231731687303715884105727", i128::MAX, 1),
        ("-1/170141183460469231731687303715884105727", -1, i128::MAX),
    ] {
        let read = read_frac(text.as_bytes())?;
        assert_eq!(rt; (read.num(), read.den()), (num, den));
        assert_eq!(rt; read.text().bytes(), text.as_bytes());
        assert_eq!(rt;
            format!(in rt.alloc(); "{read}")?.as_bytes(),
            text.as_bytes()
        );
    }
    Ok(())
}

#[test]
fn refuses_other_texts(rt: HostRuntime) {
    for (text, fault) in [
        ("", NumberFault::Empty),
        ("+1", NumberFault::Sign),
        ("-", NumberFault::Sign),
        ("-x", NumberFault::Sign),
        ("-0", NumberFault::Sign),
        ("-0/3", NumberFault::Sign),
        ("-00", NumberFault::Digit),
        ("00", NumberFault::Digit),
        ("01/2", NumberFault::Digit),
        ("1/02", NumberFault::Digit),
        ("1/", NumberFault::Digit),
        ("/2", NumberFault::Digit),
        ("1/2/3", NumberFault::Digit),
        ("1/-2", NumberFault::Digit),
        ("1.5", NumberFault::Digit),
        ("170141183460469231731687303715884105728", NumberFault::Wide),
        (
            "1/170141183460469231731687303715884105728",
            NumberFault::Wide,
        ),
        ("1/0", NumberFault::ZeroDenominator),
        ("7/1", NumberFault::NotLowest),
        ("2/4", NumberFault::NotLowest),
        ("0/5", NumberFault::NotLowest),
    ] {
        assert_eq!(rt; read_frac(text.as_bytes()), Err(fault), "{text}");
    }
}

#[test]
fn reads_amounts(rt: HostRuntime) -> Result<(), Fail> {
    for (text, thousandths, lowest) in [
        ("0", 0, "0"),
        ("-0", 0, "0"),
        ("007", 7000, "7"),
        ("-5", -5000, "-5"),
        ("1.5", 1500, "3/2"),
        ("1.500", 1500, "3/2"),
        ("-0.004", -4, "-1/250"),
        ("999999999.999", 999_999_999_999, "999999999999/1000"),
    ] {
        let read = read_amount(text.as_bytes())?;
        assert_eq!(rt; read, Amount { thousandths }, "{text}");
        assert_eq!(rt; Frac::from_amount(read).text().bytes(), lowest.as_bytes());
    }
    Ok(())
}

#[test]
fn refuses_other_amounts(rt: HostRuntime) {
    for (text, fault) in [
        ("", AmountFault::Empty),
        ("-", AmountFault::Form),
        ("+1", AmountFault::Form),
        ("1.", AmountFault::Form),
        (".5", AmountFault::Form),
        ("1.2.3", AmountFault::Form),
        ("1e3", AmountFault::Form),
        ("12345678901x", AmountFault::Form),
        ("1234567890", AmountFault::Wide),
        ("0000000001", AmountFault::Wide),
        ("1.2345", AmountFault::Wide),
    ] {
        assert_eq!(rt; read_amount(text.as_bytes()), Err(fault), "{text}");
    }
}

fn answer<L: Ledger>(a: Frac, op: Op, b: Frac, blank: Blank) -> Result<Frac, Passed>
    requires name { blank.name ≡ L.name }
    requires parts { blank.parts ≡ L.parts }
    requires some { 0 < blank.parts }
{
    let mut steps = Steps::<L>::new(blank);
    match op {
        Op::Add => a.add(b, &mut steps),
        Op::Sub => a.sub(b, &mut steps),
        Op::Mul => a.mul(b, &mut steps),
        Op::Div if b != Frac::zero() => a.div(b, &mut steps),
        Op::Div => Ok(b),
    }
}

fn answered(a: Frac, op: Op, b: Frac) -> Result<Frac, Passed> {
    answer::<Brand>(a, op, b, Blank::new(1))
}

// What an operation answers, as text: its value, or the operation that passed.
fn answer_text(alloc: Global, left: &str, op: Op, right: &str) -> Result<String, Fail> {
    let (a, b) = (read_frac(left.as_bytes())?, read_frac(right.as_bytes())?);
    match answered(a, op, b) {
        Ok(value) => Ok(format!(in alloc; "{value}")?),
        Err(Passed { op, left, right }) => Ok(format!(in alloc; "{left} {op} {right}")?),
    }
}

#[test]
fn computes(rt: HostRuntime) -> Result<(), Fail> {
    for (left, op, right, expected) in [
        ("1/3", Op::Add, "1/6", "1/2"),
        ("7", Op::Add, "-9", "-2"),
        ("1/2", Op::Sub, "1/2", "0"),
        ("2/3", Op::Mul, "9/4", "3/2"),
        ("-6", Op::Mul, "7", "-42"),
        ("1/2", Op::Div, "-1/4", "-2"),
        (
            MOST,
            Op::Add,
            "1",
            "170141183460469231731687303715884105727 + 1",
        ),
        (
            "1/2",
            Op::Sub,
            MOST,
            "1/2 - 170141183460469231731687303715884105727",
        ),
        (
            MOST,
            Op::Mul,
            "2",
            "170141183460469231731687303715884105727 * 2",
        ),
        (
            "1/3",
            Op::Div,
            MOST,
            "1/3 / 170141183460469231731687303715884105727",
        ),
    ] {
        assert_eq!(rt;
            answer_text(rt.alloc(), left, op, right)?.as_str(),
            expected
        );
    }
    Ok(())
}
