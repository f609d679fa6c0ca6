// The line of a C function: its name, the numbers of the status and, after `list`, those of the list to write:
//     NAME CODE SIDE PLACES FIRST SECOND list NUMBER ..
ghost use Rattle.std.specs.Prelude.{◌≡◌, take, drop};
ghost use Rattle.std.specs.Fn.{FnOnceReturnsAtMut};
ghost use Rattle.encoding.specs.declared.status.Status.{Status};

use crate::print_list;
use encoding::status::Status;
use std::fmt::Display;
use std::io;

// What stands at every place of a result list before a call.
pub const RESULT_FILL: i64 = 77;

// A longer result list than any call asks for.
pub const LONGEST_RESULT: usize = 40;

pub fn print_status(rt: &impl Print, name: &[u8], status: Status) -> io::Result<()> {
    let Status {
        code,
        side,
        places,
        first,
        second,
    } = status;
    rt.write_all(name)?;
    print!(rt; " {code} {side} {places} {first} {second}")
}

// Calls a C function with a list to write, so many places of a room, as far as it has them, and prints the line.
pub fn print_call<T: Display, F: FnOnce(&mut [T]) -> Status>(
    rt: &impl Print,
    name: &[u8],
    room: &mut [T],
    length: usize,
    call: F,
) -> io::Result<()>
    requires { F.IsAlwaysCallable call }
    ensures called { (status : Status) × FnOnceReturnsAtMut F.FnOnce call (take length room.old) status (take length room.new) }
    ensures kept { drop length room.new ≡ drop length room.old }
{
    let length = length.min(room.len());
    let list = &mut room[..length];
    print_status(rt, name, call(list))?;
    print_list(rt, list)
}
