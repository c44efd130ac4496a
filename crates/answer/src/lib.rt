// Why a public call is refused. Document 01 gives each refusal a number and a line: `number_of` and `line_of` say which.
#![tactic(auto)]

ghost use Rattle.std.specs.Prelude.{◌≡◌};
ghost use Rattle.answer.specs.Refusal.{number_of, line_of};
ghost use Rattle.answer.specs.Tests.{refusal_of};

#[derive(Clone, Copy)]
pub enum Refusal {
    // The plan's author: the text's length; a column or line end; the first line; order; range or constants; no recovery period.
    TextLength,
    Malformed(usize),
    Header,
    OutOfOrder(usize),
    OutOfRange(usize),
    Unrecoverable,
    // The calling program: a record that no accepted text has; a buffer's length; a mask or a good count.
    InvalidPlan,
    WrongLength,
    MaskOrCount,
    // The run file's author: a line of the run.
    RunLine(usize),
    // The calling program: more nodes, or another length, than histories are listed for.
    NodesOrLength,
    // The calling program: an access outside a card's page, or a write to a byte of it that is not written to.
    PageAccess,
}

impl Refusal {
    // The refusal with a number, of a line where it has one; none for a number that is no refusal's.
    pub fn with_number(number: usize, line: usize) -> Option<Refusal>
        ensures { result ≡ refusal_of number line }
    {
        match number {
            1 => Some(Refusal::TextLength),
            2 => Some(Refusal::Malformed(line)),
            3 => Some(Refusal::Header),
            4 => Some(Refusal::OutOfOrder(line)),
            5 => Some(Refusal::OutOfRange(line)),
            6 => Some(Refusal::Unrecoverable),
            7 => Some(Refusal::InvalidPlan),
            8 => Some(Refusal::WrongLength),
            9 => Some(Refusal::MaskOrCount),
            10 => Some(Refusal::RunLine(line)),
            11 => Some(Refusal::NodesOrLength),
            12 => Some(Refusal::PageAccess),
            _ => None,
        }
    }

    pub fn number(self) -> usize
        ensures { result ≡ number_of self }
    {
        match self {
            Refusal::TextLength => 1,
            Refusal::Malformed(_) => 2,
            Refusal::Header => 3,
            Refusal::OutOfOrder(_) => 4,
            Refusal::OutOfRange(_) => 5,
            Refusal::Unrecoverable => 6,
            Refusal::InvalidPlan => 7,
            Refusal::WrongLength => 8,
            Refusal::MaskOrCount => 9,
            Refusal::RunLine(_) => 10,
            Refusal::NodesOrLength => 11,
            Refusal::PageAccess => 12,
        }
    }

    pub fn line(self) -> usize
        ensures { result ≡ line_of self }
    {
        match self {
            Refusal::Malformed(line)
            | Refusal::OutOfOrder(line)
            | Refusal::OutOfRange(line)
            | Refusal::RunLine(line) => line,
            Refusal::Header => 1,
            _ => 0,
        }
    }
}
