// Runs the hard vectors of the float leaves, from standard input, and writes how many of each leaf
// hold. A line is the leaf's letter, three patterns and the pattern expected, in eight hex digits.
#![tactic(auto)]

use leaves::bits;
use replay::{Check, check_all, float};
use std::io;
use std::io::Read;

// The next line, which is to have this letter and what the leaf gives for its patterns.
fn line<F: Fn(f32, f32, f32) -> u32>(list: &mut impl Read, letter: u8, leaf: F) -> io::Result<Check>
    requires { F.IsAlwaysCallable leaf }
{
    let found = replay::letter(list)?;
    let (a, b, c) = (float(list)?, float(list)?, float(list)?);
    let check = Check::against(list, leaf(a, b, c))?;
    Ok(Check {
        agrees: check.agrees && found == Some(letter),
        ..check
    })
}

fn main(rt: HostRuntime) -> io::Result<()> {
    let mut list = rt.stdin();
    check_all(&rt, &mut list, "fma", 3859, |list| {
        line(list, b'f', |a, b, c| bits(leaves::fma(a, b, c)))
    })?;
    check_all(&rt, &mut list, "sqrt", 2461, |list| {
        line(list, b's', |a, _, _| bits(leaves::sqrt(a)))
    })?;
    check_all(&rt, &mut list, "sixth_root", 2361, |list| {
        line(list, b'x', |a, _, _| bits(leaves::sixth_root(a)))
    })?;
    check_all(&rt, &mut list, "abs", 21, |list| {
        line(list, b'a', |a, _, _| bits(leaves::abs(a)))
    })?;
    check_all(&rt, &mut list, "min", 441, |list| {
        line(list, b'm', |a, b, _| bits(leaves::min(a, b)))
    })?;
    check_all(&rt, &mut list, "max", 441, |list| {
        line(list, b'n', |a, b, _| bits(leaves::max(a, b)))
    })?;
    check_all(&rt, &mut list, "clamp", 756, |list| {
        line(list, b'c', |a, b, c| bits(leaves::clamp(a, b, c)))
    })?;
    check_all(&rt, &mut list, "ceil", 882, |list| {
        line(list, b'u', |a, _, _| bits(leaves::ceil(a)))
    })?;
    check_all(&rt, &mut list, "whole_up", 444, |list| {
        line(list, b'w', |a, _, _| leaves::whole_up(a))
    })?;
    check_all(&rt, &mut list, "pieces", 404, |list| {
        line(list, b'p', |a, b, c| leaves::pieces(a, b, c))
    })
}
