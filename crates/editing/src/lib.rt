// Editing the corner list of an outline: the checks, and the corners written.
#![tactic(auto)]

pub mod insertion;
pub mod removal;

ghost use Rattle.std.specs.Prelude.{◌≡◌, length};

// Copies a list to one of the same length. (Not by `copy_from_slice`: it would be `memmove`, which the library for C
// needs for nothing else.)
fn copy(from: &[i32], to: &mut [i32])
    requires { length from.now ≡ length to.old }
    ensures { to.new ≡ from.now }
{
    for (i, place) in to.iter_mut().enumerate() {
        *place = from[i];
    }
}
