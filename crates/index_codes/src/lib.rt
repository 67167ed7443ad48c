// The numbers by which C and the lines of the program know a refusal.
#![tactic(auto)]

ghost use Rattle.std.specs.Prelude.{◌≡◌};
ghost use Rattle.index_codes.specs.Codes.{number_of, code_of};

// Why an act is refused. 12 is no number: evening out two leaves takes no page (Q-7). Nor is 13.
#[derive(Clone, Copy, Debug, PartialEq, Eq)]
pub enum Refusal {
    BadLength = 1, // the length is not a permitted number of whole pages
    Unsound = 2, // the index is not sound
    BadFeatures = 3, // d, or the number of coordinates or of weights, is wrong
    BadCoordinate = 4, // a coordinate is out of range
    ZeroId = 5, // identifier 0
    AlreadyLive = 6, // the identifier is live
    NotLive = 7, // the identifier is not live
    Full = 8, // as many points are live as may be
    NoPages = 9, // the insert wants more pages than are unused or freed
    BadK = 10, // k is out of range
    FewRows = 11, // fewer than k rows are lent
    BadWeight = 14, // a weight is above 1,000
    BadStage = 15, // the stage is above 5
    BadStageSet = 16, // the stage set is 0 or above 63
    BadDate = 17, // a date does not exist or lies outside 1 January 2000 to 31 December 2099
    DatesReversed = 18, // the last date is before the first
}

impl From<Refusal> for u32 {
    ghost from_gives = { λ refusal n. n ≡ number_of refusal };

    fn from(refusal: Refusal) -> u32 {
        refusal as u32
    }
}

// The number that an act gives: 0 if it is carried out.
pub fn code_of(outcome: Result<(), Refusal>) -> u32
    ensures { result ≡ code_of outcome }
{
    match outcome {
        Ok(()) => 0,
        Err(refusal) => refusal.into(),
    }
}
