// Drawing calls from the list: kind, three points and two weights, nine numbers.
use point::Point;
use std::io;
use std::io::Read;
use store::{Call, Store};

fn point(list: &mut impl Read) -> io::Result<Point> {
    Ok(Point::new(replay::float(list)?, replay::float(list)?))
}

fn call(list: &mut impl Read) -> io::Result<Call> {
    let kind = replay::number(list)?;
    let (p1, p2, p3) = (point(list)?, point(list)?, point(list)?);
    let (w1, w2) = (replay::float(list)?, replay::float(list)?);
    // The kinds are numbers of the stored list.
    Ok(match kind {
        0 => Call::Move(p1),
        1 => Call::Line(p1),
        2 => Call::Quad(p1, p2),
        3 => Call::Cubic(p1, p2, p3),
        4 => Call::RatQuad(p1, p2, w1),
        5 => Call::RatCubic(p1, p2, p3, w1, w2),
        _ => Call::Build,
    })
}

// The calls that follow, on a fresh store, up to the first that is refused; whether none is.
pub fn draw(list: &mut impl Read, store: &mut Store<'_>, calls: u32) -> io::Result<bool> {
    let mut answer = store.fresh();
    for _ in 0..calls {
        let call = call(list)?;
        if answer.is_ok() {
            answer = store.draw(call);
        }
    }
    Ok(answer.is_ok())
}
