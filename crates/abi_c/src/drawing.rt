// The drawing calls.

ghost use Rattle.std.specs.Prelude.{◌≡◌};
ghost use Rattle.point.specs.Point.{point_at};
ghost use Rattle.store.specs.declared.Call.{Call};
ghost use Rattle.store.specs.Columns.{columns, state_at};
ghost use Rattle.store.specs.Drawing.{draw_of, fresh_of};
ghost use Rattle.abi.specs.Reply.{reply, reply_of};

// A fresh drawing; the counts are not read.
#[unsafe(no_mangle)]
pub extern "C" fn kermezhul_fresh(
    x: &mut [f32],
    y: &mut [f32],
    weight: &mut [f32],
    commands: &mut [u8],
    points: &mut usize,
    used: &mut usize,
    opening: &mut usize,
) -> u32
    ensures { reply result (state_at points.new used.new opening.new) (columns x.new y.new weight.new commands.new) ≡ reply_of (fresh_of (columns x.old y.old weight.old commands.old)) }
{
    abi::kermezhul_fresh(x, y, weight, commands, points, used, opening)
}

#[unsafe(no_mangle)]
pub extern "C" fn kermezhul_move_to(
    x: &mut [f32],
    y: &mut [f32],
    weight: &mut [f32],
    commands: &mut [u8],
    points: &mut usize,
    used: &mut usize,
    opening: &mut usize,
    px: f32,
    py: f32,
) -> u32
    ensures { reply result (state_at points.new used.new opening.new) (columns x.new y.new weight.new commands.new) ≡ reply_of (draw_of (Call.Move (point_at px py)) (state_at points.old used.old opening.old) (columns x.old y.old weight.old commands.old)) }
{
    abi::kermezhul_move_to(x, y, weight, commands, points, used, opening, px, py)
}

#[unsafe(no_mangle)]
pub extern "C" fn kermezhul_line_to(
    x: &mut [f32],
    y: &mut [f32],
    weight: &mut [f32],
    commands: &mut [u8],
    points: &mut usize,
    used: &mut usize,
    opening: &mut usize,
    px: f32,
    py: f32,
) -> u32
    ensures { reply result (state_at points.new used.new opening.new) (columns x.new y.new weight.new commands.new) ≡ reply_of (draw_of (Call.Line (point_at px py)) (state_at points.old used.old opening.old) (columns x.old y.old weight.old commands.old)) }
{
    abi::kermezhul_line_to(x, y, weight, commands, points, used, opening, px, py)
}

#[unsafe(no_mangle)]
pub extern "C" fn kermezhul_quad_to(
    x: &mut [f32],
    y: &mut [f32],
    weight: &mut [f32],
    commands: &mut [u8],
    points: &mut usize,
    used: &mut usize,
    opening: &mut usize,
    x1: f32,
    y1: f32,
    x2: f32,
    y2: f32,
) -> u32
    ensures { reply result (state_at points.new used.new opening.new) (columns x.new y.new weight.new commands.new) ≡ reply_of (draw_of (Call.Quad (point_at x1 y1) (point_at x2 y2)) (state_at points.old used.old opening.old) (columns x.old y.old weight.old commands.old)) }
{
    abi::kermezhul_quad_to(
        x, y, weight, commands, points, used, opening, x1, y1, x2, y2,
    )
}

#[unsafe(no_mangle)]
pub extern "C" fn kermezhul_cubic_to(
    x: &mut [f32],
    y: &mut [f32],
    weight: &mut [f32],
    commands: &mut [u8],
    points: &mut usize,
    used: &mut usize,
    opening: &mut usize,
    x1: f32,
    y1: f32,
    x2: f32,
    y2: f32,
    x3: f32,
    y3: f32,
) -> u32
    ensures { reply result (state_at points.new used.new opening.new) (columns x.new y.new weight.new commands.new) ≡ reply_of (draw_of (Call.Cubic (point_at x1 y1) (point_at x2 y2) (point_at x3 y3)) (state_at points.old used.old opening.old) (columns x.old y.old weight.old commands.old)) }
{
    abi::kermezhul_cubic_to(
        x, y, weight, commands, points, used, opening, x1, y1, x2, y2, x3, y3,
    )
}

#[unsafe(no_mangle)]
pub extern "C" fn kermezhul_rat_quad_to(
    x: &mut [f32],
    y: &mut [f32],
    weight: &mut [f32],
    commands: &mut [u8],
    points: &mut usize,
    used: &mut usize,
    opening: &mut usize,
    x1: f32,
    y1: f32,
    x2: f32,
    y2: f32,
    w: f32,
) -> u32
    ensures { reply result (state_at points.new used.new opening.new) (columns x.new y.new weight.new commands.new) ≡ reply_of (draw_of (Call.RatQuad (point_at x1 y1) (point_at x2 y2) w) (state_at points.old used.old opening.old) (columns x.old y.old weight.old commands.old)) }
{
    abi::kermezhul_rat_quad_to(
        x, y, weight, commands, points, used, opening, x1, y1, x2, y2, w,
    )
}

#[unsafe(no_mangle)]
pub extern "C" fn kermezhul_rat_cubic_to(
    x: &mut [f32],
    y: &mut [f32],
    weight: &mut [f32],
    commands: &mut [u8],
    points: &mut usize,
    used: &mut usize,
    opening: &mut usize,
    x1: f32,
    y1: f32,
    x2: f32,
    y2: f32,
    x3: f32,
    y3: f32,
    w1: f32,
    w2: f32,
) -> u32
    ensures { reply result (state_at points.new used.new opening.new) (columns x.new y.new weight.new commands.new) ≡ reply_of (draw_of (Call.RatCubic (point_at x1 y1) (point_at x2 y2) (point_at x3 y3) w1 w2) (state_at points.old used.old opening.old) (columns x.old y.old weight.old commands.old)) }
{
    abi::kermezhul_rat_cubic_to(
        x, y, weight, commands, points, used, opening, x1, y1, x2, y2, x3, y3, w1, w2,
    )
}

#[unsafe(no_mangle)]
pub extern "C" fn kermezhul_build(
    x: &mut [f32],
    y: &mut [f32],
    weight: &mut [f32],
    commands: &mut [u8],
    points: &mut usize,
    used: &mut usize,
    opening: &mut usize,
) -> u32
    ensures { reply result (state_at points.new used.new opening.new) (columns x.new y.new weight.new commands.new) ≡ reply_of (draw_of Call.Build (state_at points.old used.old opening.old) (columns x.old y.old weight.old commands.old)) }
{
    abi::kermezhul_build(x, y, weight, commands, points, used, opening)
}
