// The fit program on lists of bytes: from the bytes of its input to the bytes that it writes.
#![tactic(auto)]

mod parsing;

ghost use Rattle.std.specs.Prelude.{◌≡◌, ◌≤◌, length};
ghost use Rattle.text.specs.Ascii.{ascii};
ghost use Rattle.text.specs.Output.{text_of, room};
ghost use Rattle.fit_text.specs.Response.{response};

use text::output::Text;

// The longest input that is not unreadable: 16 KiB.
pub const MOST_BYTES: usize = 16384;

fn unreadable() -> Text
    ensures { result ≡ text_of (ascii "unreadable\n") }
{
    Text::empty().bytes(b"unreadable\n")
}

// What the program writes for an input: `unreadable`, a refusal in one line, or the seven lines of a comparison.
// Any bytes may be handed to it. What it writes fits a text, so that nothing is left out.
pub fn respond(input: &[u8]) -> Text
    ensures bytes { result ≡ text_of (response input.now) }
    ensures whole { length (response input.now) ≤ room }
{
    if MOST_BYTES < input.len() {
        return unreadable();
    }
    match parsing::read(input) {
        Some(comparison) => fit_lines::comparison(Text::empty(), comparison),
        None => unreadable(),
    }
}
