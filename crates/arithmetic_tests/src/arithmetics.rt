// The three arithmetics, alone and chosen at run time.
ghost use Rattle.std.specs.Prelude.{◌<◌};

use crate::moduli::{COMPOSITES, PRIMES, numbers};
use arithmetic::{Arithmetic, Balanced, Either, Montgomery, Plain, invert, raise};
use std::process::Abort;
use std::test::Fail;

#[derive(Clone, Copy, PartialEq, Debug)]
struct Outcome {
    brought: u32,
    sum: u32,
    difference: u32,
    product: u32,
    power: u32,
    inverse: u32,
}

// Every operation on a and b, and a^b.
fn worked<W: Arithmetic>(w: &W, a: u32, b: u32) -> Outcome {
    let x = w.bring_in(a);
    let y = w.bring_in(b);
    Outcome {
        brought: w.take_out(x),
        sum: w.take_out(w.add(x, y)),
        difference: w.take_out(w.sub(x, y)),
        product: w.take_out(w.mul(x, y)),
        power: w.take_out(raise(w, x, b)),
        inverse: w.take_out(invert(w, x)),
    }
}

// The same with 64-bit words, the power bit by bit from its highest.
fn by_division(p: u32, a: u32, b: u32) -> Outcome
    requires { 2 < p }
{
    let m = p as u64;
    let x = a as u64 % m;
    let y = b as u64 % m;
    Outcome {
        brought: x as u32,
        sum: ((x + y) % m) as u32,
        difference: ((x + (m - y)) % m) as u32,
        product: (x * y % m) as u32,
        power: power(p, a, b),
        inverse: power(p, a, p - 2),
    }
}

fn power(p: u32, a: u32, n: u32) -> u32
    requires { 2 < p }
{
    let m = p as u64;
    let mut result = 1u64;
    for i in (0..32u32).rev() {
        result = result % m * (result % m) % m;
        if n >> i & 1 == 1 {
            result = result % m * (a as u64 % m) % m;
        }
    }
    (result % m) as u32
}

fn agree(rt: &impl Abort, p: u32) -> Result<(), Fail> {
    assert!(rt; p > 2);
    let plain = Plain::new(p)?;
    let montgomery = Montgomery::new(p)?;
    let balanced = Balanced::new(p)?;
    assert_eq!(rt;
        [plain.modulus(), montgomery.modulus(), balanced.modulus()],
        [p; 3]
    );
    for a in numbers(p) {
        for b in numbers(p) {
            let expected = by_division(p, a, b);
            assert_eq!(rt;
                [
                    worked(&plain, a, b),
                    worked(&montgomery, a, b),
                    worked(&balanced, a, b),
                ],
                [expected; 3]
            );
        }
    }
    Ok(())
}

#[test]
fn arithmetics_agree(rt: HostRuntime) -> Result<(), Fail> {
    for &p in PRIMES.iter().chain(&COMPOSITES) {
        agree(&rt, p)?;
    }
    Ok(())
}

// One arithmetic or the other, with the elements of both.
fn chosen(rt: &impl Abort, p: u32) -> Result<(), Fail> {
    let left: Either<Plain, Montgomery> = Either::Left(Plain::new(p)?);
    let right: Either<Plain, Montgomery> = Either::Right(Montgomery::new(p)?);
    assert_eq!(rt; [left.modulus(), right.modulus()], [p; 2]);
    for a in numbers(p) {
        for b in numbers(p) {
            assert_eq!(rt; worked(&left, a, b), worked(&right, a, b));
        }
        // an element of the other side stands for 0
        let own = left.bring_in(a);
        let other = right.bring_in(a);
        assert_eq!(rt;
            [
                left.take_out(other),
                right.take_out(own),
                left.take_out(left.mul(own, other)),
            ],
            [0; 3]
        );
        let kept = [
            left.take_out(left.add(own, other)),
            right.take_out(right.sub(other, own)),
        ];
        assert_eq!(rt; kept, [left.take_out(own), right.take_out(other)]);
    }
    Ok(())
}

#[test]
fn either_arithmetic(rt: HostRuntime) -> Result<(), Fail> {
    for p in [5, 9, 17, 2147480633, 2147483647u32] {
        chosen(&rt, p)?;
    }
    Ok(())
}

// By a prime p every number but 0 has an inverse that gives 1 with it.
fn inverses<W: Arithmetic>(rt: &impl Abort, w: &W, p: u32) {
    for a in numbers(p) {
        let x = w.bring_in(a);
        let expected = if w.take_out(x) == 0 { 0 } else { 1 };
        assert_eq!(rt; w.take_out(w.mul(x, invert(w, x))), expected);
    }
}

#[test]
fn inverses_by_primes(rt: HostRuntime) -> Result<(), Fail> {
    for p in PRIMES {
        inverses(&rt, &Plain::new(p)?, p);
        inverses(&rt, &Montgomery::new(p)?, p);
        inverses(&rt, &Balanced::new(p)?, p);
    }
    Ok(())
}
