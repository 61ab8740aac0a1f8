//! Every refusal of the planner, with the figures that it names, and its code.

ghost use Rattle.std.specs.Prelude.{◌≡◌};
ghost use Rattle.refusal.specs.Codes.{code_of, obstacle_of, says, unmet_of};

/// A refusal's number and its three figures. A figure that the refusal does not name is 0.
/// Figures have 128 bits, so that one more than the largest size of a tray is one, too. Numbers and no enum: a refusal is printed as a number
/// and three figures.
#[derive(Clone, Copy, PartialEq, Eq, Debug)]
pub struct Code {
    pub number: u32,
    pub first: u128,
    pub second: u128,
    pub third: u128,
}

impl Code {
    pub fn new(number: u32, first: u128, second: u128, third: u128) -> Code
        ensures { result ≡ says number first second third }
    {
        Code {
            number,
            first,
            second,
            third,
        }
    }
}

/// Why an event does not run, with the lowest fact or action to blame.
#[derive(Clone, Copy, PartialEq, Eq, Debug)]
pub enum Obstacle {
    /// this required fact is false
    RequiredFactFalse(u32),
    /// a start of this action, which is open
    ActionAlreadyOpen(u32),
    /// an end of this action, which is not open
    ActionNotOpen(u32),
    /// this other action is open, and the event deletes a fact that it holds
    HeldFactDeleted(u32),
}

/// What a plan leaves undone at its end, with the lowest action or fact to blame.
#[derive(Clone, Copy, PartialEq, Eq, Debug)]
pub enum Unmet {
    /// this action is still open
    ActionLeftOpen(u32),
    /// this goal fact is false
    GoalFactFalse(u32),
}

#[derive(Clone, Copy, PartialEq, Eq, Debug)]
pub enum Refusal {
    SizeOutOfLimits,
    SizeAfterNote,
    RoleOutOfLimits,
    ActionOutOfLimits,
    FactOutOfLimits,
    NoteRepeated,
    NoteClashes,
    StepsOutOfLimits,
    PriceExceedsFree,
    /// the lowest variable without a value
    VariableWithoutValue { variable: u32 },
    /// the first false clause: its place in the clause list, its family and its step; the family by its number, since its enum stands in a
    /// crate above
    FalseClause { clause: u32, family: u32, step: u32 },
    /// how many places the tray would need
    TrayTooShort { needed: u128 },
    /// the first place whose pair is out of limits or does not rise
    PairMisplaced { place: usize },
    EventDoesNotRun { place: usize, obstacle: Obstacle },
    WrongEnding { unmet: Unmet },
    /// how many variables the map would have to hold
    MapTooShort { variables: u32 },
    ClauseOutOfLimits,
    MalformedText { line: usize, column: usize },
    NoModel,
    /// the number of the draft's own refusal, as the line prints it
    LineRefused { line: usize, number: u32 },
    InputTooLong,
}

impl Obstacle {
    /// The number of the cause, and its item: two figures of the refusal's printed line.
    pub fn cause(&self) -> (u32, u32)
        ensures { result ≡ obstacle_of self.now }
    {
        match *self {
            Obstacle::RequiredFactFalse(fact) => (1, fact),
            Obstacle::ActionAlreadyOpen(action) => (2, action),
            Obstacle::ActionNotOpen(action) => (3, action),
            Obstacle::HeldFactDeleted(action) => (4, action),
        }
    }
}

impl Unmet {
    /// The number of the cause, and its item: two figures of the refusal's printed line.
    pub fn cause(&self) -> (u32, u32)
        ensures { result ≡ unmet_of self.now }
    {
        match *self {
            Unmet::ActionLeftOpen(action) => (5, action),
            Unmet::GoalFactFalse(fact) => (6, fact),
        }
    }
}

impl Refusal {
    /// The refusal's number and figures.
    pub fn code(&self) -> Code
        ensures { result ≡ code_of self.now }
    {
        match *self {
            Refusal::SizeOutOfLimits => Code::new(1, 0, 0, 0),
            Refusal::SizeAfterNote => Code::new(2, 0, 0, 0),
            Refusal::RoleOutOfLimits => Code::new(3, 0, 0, 0),
            Refusal::ActionOutOfLimits => Code::new(4, 0, 0, 0),
            Refusal::FactOutOfLimits => Code::new(5, 0, 0, 0),
            Refusal::NoteRepeated => Code::new(6, 0, 0, 0),
            Refusal::NoteClashes => Code::new(7, 0, 0, 0),
            Refusal::StepsOutOfLimits => Code::new(8, 0, 0, 0),
            Refusal::PriceExceedsFree => Code::new(9, 0, 0, 0),
            Refusal::VariableWithoutValue { variable } => Code::new(10, u128::from(variable), 0, 0),
            Refusal::FalseClause {
                clause,
                family,
                step,
            } => Code::new(11, u128::from(clause), u128::from(family), u128::from(step)),
            Refusal::TrayTooShort { needed } => Code::new(12, needed, 0, 0),
            Refusal::PairMisplaced { place } => Code::new(13, wide(place), 0, 0),
            Refusal::EventDoesNotRun { place, obstacle } => {
                let (cause, item) = obstacle.cause();
                Code::new(14, wide(place), u128::from(cause), u128::from(item))
            }
            Refusal::WrongEnding { unmet } => {
                let (cause, item) = unmet.cause();
                Code::new(15, 0, u128::from(cause), u128::from(item))
            }
            Refusal::MapTooShort { variables } => Code::new(16, u128::from(variables), 0, 0),
            Refusal::ClauseOutOfLimits => Code::new(17, 0, 0, 0),
            Refusal::MalformedText { line, column } => Code::new(18, wide(line), wide(column), 0),
            Refusal::NoModel => Code::new(19, 0, 0, 0),
            Refusal::LineRefused { line, number } => Code::new(20, wide(line), 0, number.into()),
            Refusal::InputTooLong => Code::new(21, 0, 0, 0),
        }
    }
}

// A place as a figure; std has no `From` for it.
fn wide(place: usize) -> u128
    ensures { result ≡ place }
{
    place as u128
}
