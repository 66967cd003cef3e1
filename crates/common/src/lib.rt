// What every crate shares: the numbers of the documents' refusal table, and in specs/ the words of the specifications and laws about them.

#![tactic(auto)]

ghost use Rattle.std.specs.Prelude.{◌≡◌};
ghost use Rattle.common.specs.RefusalNumbers.{outcome_number};

// What an answer's number is where nothing is refused.
pub const ACCEPTED: u8 = 0;

// Why a call refuses, with the number that the format gives it.
#[derive(Clone, Copy, PartialEq, Eq)]
pub enum Refusal {
    // Loading: number and line, with the blank record.
    WrongCharacters = 1,
    WrongLength = 2,
    WrongSum = 3,
    WrongKind = 4,
    OverLimit = 5,
    OutOfRange = 6,
    NotRising = 7,
    WrongEnd = 8,
    Circle = 9,
    // Edits: the record is handed back.
    EdgeOutOfRange = 10,
    EdgePresent = 11,
    EdgeAbsent = 12,
    EdgesFull = 13,
    // Questions.
    NoMethod = 14,
    NoObject = 15,
    NotUser = 16,
    NoSet = 17,
    // Writing.
    ShortBuffer = 18,
    // Any call but loading: no bundle loads to the record.
    NotLoadable = 19,
    // Tickets: the number alone; the record stays.
    NotEnabled = 20,
    NotConsistent = 21,
    GuardNotMet = 22,
}

impl From<Refusal> for u8 {
    ghost use Rattle.common.specs.RefusalNumbers.{IsNumberOf};

    ghost from_gives = { IsNumberOf };

    fn from(refusal: Refusal) -> u8 {
        refusal as u8
    }
}

// The number of an outcome: 0, or that of its refusal.
pub fn number_of<T: Copy>(outcome: Result<T, Refusal>) -> u8
    ensures { result ≡ outcome_number outcome }
{
    match outcome {
        Ok(_) => ACCEPTED,
        Err(refusal) => u8::from(refusal),
    }
}

// ---- the limits of document 01, and the rooms that follow from them (`specs/Limits.antt`)

// Objects are 0 to 254, so that a count is an octet; each may have a user line.
pub const MOST_OBJECTS: usize = 255;

pub const MOST_USERS: usize = 255;

pub const MOST_EDGES: usize = 512;

pub const MOST_FORMULAS: usize = 64;

pub const MOST_DEMARCATIONS: usize = 20;

pub const MOST_PRINCIPALS: usize = 20;

// Demarcations or principals: the things that a hierarchy or prerequisites relate.
pub const MOST_RELATED: usize = 20;

pub const MOST_METHODS: usize = 32;

// Ordered pairs of two different things out of 20, for the hierarchy and the prerequisites; pairs with the lower first, for exclusions.
pub const MOST_PAIRS: usize = 380;

pub const MOST_EXCLUSIONS: usize = 190;

// Labels and roles are 0 to 15, slots 0 to 3, privileges 0 to 63.
pub const HIGHEST_LABEL: u8 = 15;

pub const LABEL_COUNT: usize = 16;

pub const HIGHEST_ROLE: u8 = 15;

pub const HIGHEST_SLOT: u8 = 3;

pub const SLOT_COUNT: usize = 4;

pub const PRIVILEGE_COUNT: usize = 64;

// A formula's height.
pub const GREATEST_HEIGHT: u8 = 5;

// The octets of a line of any kind that a bundle may have: the longest, a method's, has 12.
pub const LINE_ROOM: usize = 16;
