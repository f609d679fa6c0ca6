// A strictly convex outline with 256 corners: 127 steps of one to the right that rise by 0, 1, .. 126, one step up,
// the same steps back, to the left and down, and one step down. Each step turns left from the one before it, once
// around in all.
ghost use Rattle.std.specs.Prelude.{◌<◌};

// Writes corner i, which lies y above corner 0, and corner 128 + i, which lies y below corner 128.
fn put_corners(list: &mut [i32; 514], i: usize, y: usize)
    requires { (i < 128) × (y < 8002) }
{
    list[2 * i] = i as i32;
    list[2 * i + 1] = y as i32;
    list[2 * i + 256] = (127 - i) as i32;
    list[2 * i + 257] = (8002 - y) as i32;
}

// The list that gives these corners, and one corner more, (0, 0).
pub fn list() -> [i32; 514] {
    let mut list = [0; 514];
    let mut y = 0;
    for i in 0..128 {
        put_corners(&mut list, i, y);
        y += i;
    }
    list
}
