// A text that is made part by part.
ghost use Rattle.std.specs.Prelude.{[], ◌≡◌};
ghost use Rattle.text.specs.Decimal.{decimal, signed_decimal};
ghost use Rattle.text.specs.Output.{text_of};
ghost use Rattle.text.specs.code.Output.{pushed, appended};

// How many bytes a text has room for.
const ROOM: usize = 512;

// A text as one value: how many bytes it has, and places for 512 of them, the unused ones zero.
// A String or a Vec would need a heap; `text_of`, which `fit_text::respond` promises, names these fields.
#[derive(Clone, Copy)]
pub struct Text {
    pub count: usize,
    pub bytes: [u8; ROOM],
}

impl Text {
    pub fn empty() -> Text
        ensures { result ≡ text_of [] }
    {
        Text {
            count: 0,
            bytes: [0; ROOM],
        }
    }

    // One byte more; a full text stays as it is.
    fn push(&mut self, b: u8)
        ensures { self.new ≡ pushed self.old b }
    {
        if self.count < ROOM {
            self.bytes[self.count] = b;
            self.count += 1;
        }
    }

    // The text with the bytes of a list after it.
    pub fn bytes(mut self, s: &[u8]) -> Text
        ensures { result ≡ appended self s.now }
    {
        for &b in s {
            self.push(b);
        }
        self
    }

    // The text with a number in decimal after it. It calls itself at most 19 times, one inside the other.
    // Not by `write!`, which promises the digits on Ok alone; `to_string` needs a heap.
    pub fn natural(mut self, n: u64) -> Text
        ensures { result ≡ appended self (decimal n) }
    {
        let digit = b'0' + (n % 10) as u8;
        if n < 10 {
            self.push(digit);
            return self;
        }
        let mut longer = self.natural(n / 10);
        longer.push(digit);
        longer
    }

    pub fn signed(self, n: i64) -> Text
        ensures { result ≡ appended self (signed_decimal n) }
    {
        if n < 0 {
            self.bytes(b"-").natural(n.unsigned_abs())
        } else {
            self.natural(n as u64)
        }
    }
}
