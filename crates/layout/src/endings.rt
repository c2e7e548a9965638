// How a run ends (specs/Rules.antt), in the order of the paper's table.
ghost use Rattle.std.specs.Prelude.{◌≡◌};
ghost use Rattle.layout.specs.Endings.{ending_number};
ghost use Rattle.layout.specs.Named.{endings};

// A row of the table, by its number.
#[derive(Clone, Copy, PartialEq, Eq)]
pub enum Ending {
    MainReturned = 1,
    Exited = 2,
    Unhandled = 3,
    FellOff = 4,
    StepsSpent = 5,
    BeyondDepth = 6,
    NoInput = 7,
    NoRoom = 8,
    Aborted = 9,
    UndoSpent = 10,
}

// Their numbers in the table.
pub const MAIN_RETURNED: u32 = Ending::MainReturned as u32;

pub const EXITED: u32 = Ending::Exited as u32;

pub const UNHANDLED: u32 = Ending::Unhandled as u32;

pub const FELL_OFF: u32 = Ending::FellOff as u32;

pub const STEPS_SPENT: u32 = Ending::StepsSpent as u32;

pub const BEYOND_DEPTH: u32 = Ending::BeyondDepth as u32;

pub const NO_INPUT: u32 = Ending::NoInput as u32;

pub const NO_ROOM: u32 = Ending::NoRoom as u32;

pub const ABORTED: u32 = Ending::Aborted as u32;

pub const UNDO_SPENT: u32 = Ending::UndoSpent as u32;

// All of them, as the specs name them: a wrong one breaks this contract.
pub fn all() -> [u32; 10]
    ensures { result ≡ endings }
{
    [
        MAIN_RETURNED,
        EXITED,
        UNHANDLED,
        FELL_OFF,
        STEPS_SPENT,
        BEYOND_DEPTH,
        NO_INPUT,
        NO_ROOM,
        ABORTED,
        UNDO_SPENT,
    ]
}

impl Ending {
    // Its number in the table, which a host is told.
    pub fn number(self) -> u32
        ensures { result ≡ ending_number self }
    {
        self as u32
    }
}
