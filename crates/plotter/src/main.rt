// The plotting program: a listing on standard input; its HP-GL text on standard output, or on a refusal nothing there and two lines on standard error. Its one
// argument names the setting; without any it is the knife's.
#![tactic(auto)]

use listing::{LONGEST, Refused};
use point::Setting;
use std::env::{Env, FillError};
use std::io;
use std::io::Read;

fn is_missing(env: &impl Env, i: usize) -> bool {
    matches!(env.arg(i, &mut []), Err(FillError::NotPresent))
}

fn asked(env: &impl Env) -> Option<Setting> {
    if is_missing(env, 1) {
        return Some(Setting::Knife);
    }
    if !is_missing(env, 2) {
        return None;
    }
    let mut flag = [0u8; 8];
    // What is not read is longer than each flag.
    let n = env.arg(1, &mut flag).ok()?;
    plotting::chosen(&flag[..n])
}

// The two lines of a refusal.
fn refuse(said: &impl Print, refused: Refused) -> io::Result<()> {
    let mut lines = [0u8; 36];
    // The proof of this call shows that the two lines fit.
    let m = listing::refusal(&mut lines, Err(refused.refusal), refused.line).unwrap();
    said.write_all(&lines[..m])
}

fn plot_input(
    source: &mut impl Read,
    plot: &impl Print,
    said: &impl Print,
    setting: Setting,
) -> io::Result<()> {
    // One byte more than a listing may have, so that a longer input is noticed.
    let mut input = [0u8; LONGEST + 1];
    // As many bytes as the longest text has.
    let mut text = [0u8; 8707];
    let n = input::read_full(source, &mut input)?;
    match plotting::plot_listing(setting, &input[..n], &mut text) {
        Ok(m) => plot.write_all(&text[..m]),
        Err(refused) => refuse(said, refused),
    }
}

fn main(rt: HostRuntime) -> io::Result<()> {
    match asked(&rt) {
        Some(setting) => plot_input(&mut rt.stdin(), &rt.stdout(), &rt.stderr(), setting),
        None => eprintln!(rt; "usage: plotter [--knife | --screen]"),
    }
}
