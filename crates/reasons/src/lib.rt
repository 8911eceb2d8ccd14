// Why a call or a net is refused: the reasons of papers 01 and 02, and a refusal's reason and place.
#![tactic(auto)]

ghost use Rattle.std.specs.Prelude.{◌≡◌};
ghost use Rattle.reasons.specs.Reasons.{number, first_place};

// The reasons, by their numbers. A maker meets them under the names of `gedrovit.h`.
#[derive(Clone, Copy, Debug, PartialEq, Eq)]
pub enum Reason {
    TooManyRounds = 1,
    InvalidLengths = 2,
    NetTooLarge = 3,
    TableTooShort = 4,
    CoordinateOutOfRange = 5,
    InvalidMark = 6,
    InvalidCorner = 7,
    IsolatedVertex = 8,
    RepeatedHalfEdge = 9,
    NonManifoldVertex = 10,
    ValenceOutOfRange = 11,
    MarkedInteriorVertex = 12,
    MalformedText = 13,
    InvalidSideCounts = 14,
    TallyLimit = 15,
    TensionOutOfRange = 16,
    InvalidStart = 17,
    SeamMismatch = 18,
}

impl Reason {
    // The number that the papers give it.
    pub fn number(self) -> u32
        ensures { result ≡ number self }
    {
        self as u32
    }
}

// A refusal: its reason, and "the lowest number concerned".
#[derive(Clone, Copy, Debug, PartialEq, Eq)]
pub struct Refusal {
    pub reason: Reason,
    pub place: usize,
}

// A refusal that concerns no place has place 0.
impl From<Reason> for Refusal {
    ghost from_gives = { first_place };

    fn from(reason: Reason) -> Refusal {
        Refusal { reason, place: 0 }
    }
}
