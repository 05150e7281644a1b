// Replays vectors that the original Rust made: reads inputs and results as words of eight hex
// digits, each with the byte after it, and writes how many results of each function agree.
#![tactic(auto)]

use command::PointCommand;
use point::{Point, Setting, WeightedPoint};
use replay::{Check, check_all, float, number as word};
use std::io;
use std::io::Read;

fn against_float(list: &mut impl Read, x: f32) -> io::Result<Check> {
    Check::against(list, leaves::bits(x))
}

fn angle(list: &mut impl Read) -> io::Result<Check> {
    let x = float(list)?;
    let y = float(list)?;
    let d = Point::new(x, y);
    let len = against_float(list, d.len())?;
    let (known, value) = match d.angle() {
        None => (Check::against(list, 0)?, Check::against(list, 0)?),
        Some(a) => (Check::against(list, 1)?, against_float(list, a)?),
    };
    Ok(len.and(known).and(value))
}

fn angle_read(list: &mut impl Read) -> io::Result<Option<f32>> {
    let known = word(list)?;
    let a = float(list)?;
    Ok((known != 0).then_some(a))
}

fn changed(list: &mut impl Read, setting: Setting) -> io::Result<Check> {
    let a0 = angle_read(list)?;
    let a1 = angle_read(list)?;
    Check::against(list, u32::from(point::changed(setting, a0, a1)))
}

fn of_float<F: Fn(f32) -> f32>(list: &mut impl Read, function: F) -> io::Result<Check>
    requires { F.IsAlwaysCallable function }
{
    let x = float(list)?;
    against_float(list, function(x))
}

fn of_two<F: Fn(f32, f32) -> f32>(list: &mut impl Read, function: F) -> io::Result<Check>
    requires { F.IsAlwaysCallable function }
{
    let (a, b) = (float(list)?, float(list)?);
    against_float(list, function(a, b))
}

fn weighted_point(list: &mut impl Read) -> io::Result<WeightedPoint> {
    let x = float(list)?;
    let y = float(list)?;
    let weight = float(list)?;
    Ok(WeightedPoint {
        point: Point { x, y },
        weight,
    })
}

fn eval_cubic(list: &mut impl Read) -> io::Result<Check> {
    let t = float(list)?;
    let p0 = weighted_point(list)?;
    let p1 = weighted_point(list)?;
    let p2 = weighted_point(list)?;
    let p3 = weighted_point(list)?;
    let p = point::eval_cubic(t, p0, p1, p2, p3);
    Ok(
        against_float(list, p.point.x)?
            .and(against_float(list, p.point.y)?)
            .and(against_float(list, p.weight)?),
    )
}

fn eval_quad(list: &mut impl Read) -> io::Result<Check> {
    let t = float(list)?;
    let p0 = weighted_point(list)?;
    let p1 = weighted_point(list)?;
    let p2 = weighted_point(list)?;
    let p = point::eval_quad(t, p0, p1, p2);
    Ok(against_float(list, p.x)?.and(against_float(list, p.y)?))
}

// The case, its number or its step's bits, and its flag: the numbers of the stored list, here and in `pack`.
fn against_command(list: &mut impl Read, case: u32, value: u32, flag: u32) -> io::Result<Check> {
    Ok(
        Check::against(list, case)?
            .and(Check::against(list, value)?)
            .and(Check::against(list, flag)?),
    )
}

fn unpack(list: &mut impl Read) -> io::Result<Check> {
    let c = PointCommand::from(word(list)?);
    let (case, value, flag) = match c {
        PointCommand::Start(i) => (0, (i % 0x1_0000_0000) as u32, 0),
        PointCommand::Incr(step) => (1, leaves::bits(step), 0),
        PointCommand::End(i, flag) => (2, (i % 0x1_0000_0000) as u32, u32::from(flag)),
    };
    let fields = against_command(list, case, value, flag)?;
    Ok(fields.and(Check::against(list, u32::from(c))?))
}

fn pack(list: &mut impl Read) -> io::Result<Check> {
    let case = word(list)?;
    let value = word(list)?;
    let flag = word(list)?;
    let command = match case {
        0 => PointCommand::Start(value as usize),
        1 => PointCommand::Incr(leaves::from_bits(value)),
        _ => PointCommand::End(value as usize, flag != 0),
    };
    Check::against(list, u32::from(command))
}

// Whether the list has no more than was read.
fn is_at_end(list: &mut impl Read) -> io::Result<bool> {
    let mut one = [0u8; 1];
    let got = input::read_full(list, &mut one)?;
    Ok(got == 0)
}

fn main(rt: HostRuntime) -> io::Result<()> {
    let mut list = rt.stdin();
    check_all(&rt, &mut list, "angle", 1224, |list| angle(list))?;
    check_all(&rt, &mut list, "changed", 497, |list| {
        changed(list, Setting::Screen)
    })?;
    check_all(&rt, &mut list, "curvature", 1024, |list| {
        of_float(list, |x| point::curvature(x))
    })?;
    check_all(&rt, &mut list, "inv_curvature", 1024, |list| {
        of_float(list, |x| point::inv_curvature(x))
    })?;
    check_all(&rt, &mut list, "eval_cubic", 1024, |list| eval_cubic(list))?;
    check_all(&rt, &mut list, "eval_quad", 512, |list| eval_quad(list))?;
    check_all(&rt, &mut list, "unpack", 534, |list| unpack(list))?;
    check_all(&rt, &mut list, "pack", 87, |list| pack(list))?;
    check_all(&rt, &mut list, "changed for the knife", 1280, |list| {
        changed(list, Setting::Knife)
    })?;
    check_all(&rt, &mut list, "diff", 783, |list| {
        of_two(list, |a, b| point::diff(a, b))
    })?;
    check_all(&rt, &mut list, "full_diff", 783, |list| {
        of_two(list, |a, b| point::full_diff(a, b))
    })?;
    if is_at_end(&mut list)? {
        println!(rt; "end of the list")?;
    }
    Ok(())
}
