// The status that every call returns: a refusal as plain numbers. `specs/Status.antt` sets out the numbers of each
// case.
ghost use Rattle.std.specs.Prelude.{◌≡◌};

use outline::{Place, Refusal, Side};

// Whether a call answered and, if not, why: the code, the side of a refusal, how many place numbers it has, and these.
#[repr(C)]
#[derive(Clone, Copy)]
pub struct Status {
    pub code: u32,
    pub side: u32,
    pub places: u32,
    pub first: usize,
    pub second: usize,
}

// The code of a call that answered. A refusal's code is its number.
const ANSWERED: u32 = 0;

// The code of a call whose result list has the wrong length: no refusal has this number.
const WRONG_RESULT_LENGTH: u32 = 100;

impl Status {
    ghost use Rattle.encoding.specs.Status.{plain, answered, wrong_result_length};

    // A status with a code alone.
    fn plain(code: u32) -> Status
        ensures { result ≡ plain code }
    {
        Status {
            code,
            side: 0,
            places: 0,
            first: 0,
            second: 0,
        }
    }

    // The call answered.
    pub fn answered() -> Status
        ensures { result ≡ answered }
    {
        Status::plain(ANSWERED)
    }

    // The result list has the wrong length.
    pub fn wrong_result_length() -> Status
        ensures { result ≡ wrong_result_length }
    {
        Status::plain(WRONG_RESULT_LENGTH)
    }
}

// The call refused.
impl From<Refusal> for Status {
    ghost use Rattle.encoding.specs.Status.{refused_status};

    ghost from_gives = { λ refusal status. status ≡ refused_status refusal };

    fn from(refusal: Refusal) -> Status {
        let side = match refusal.side {
            None => 0,
            Some(Side::A) => 1,
            Some(Side::B) => 2,
        };
        let (places, first, second) = match refusal.place {
            Place::Nowhere => (0, 0, 0),
            Place::At(i) => (1, i, 0),
            Place::EdgeAndCorner(e, c) => (2, e, c),
        };
        Status {
            code: u32::from(refusal.fault),
            side,
            places,
            first,
            second,
        }
    }
}
