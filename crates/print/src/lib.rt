// Texts on standard output.
#![tactic(auto)]

ghost use Rattle.text.specs.code.Output.{IsText};

use std::io;
use text::output::Text;

// Writes a text. Gives the error of a write that fails.
pub fn write(rt: &impl Print, t: Text) -> io::Result<()>
    requires { IsText t }
{
    rt.write_all(&t.bytes[..t.count])
}
