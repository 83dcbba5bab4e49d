ghost use Rattle.std.specs.Prelude.{◌≡◌};
ghost use Rattle.sim_core.specs.Status.{code_of};

/// How a call of `run` ended.
#[derive(Clone, Copy, Debug, PartialEq, Eq)]
pub enum Status {
    /// The input was read to its end, and the whole text was written.
    Done,
    /// Out of memory. Nothing was written; of `replay` the run up to a place between two transitions.
    NoMemory,
    /// The words are none of the forms. Nothing was read or written.
    Usage,
    /// The source failed. Nothing was written; of `replay` the run of the result lines that were taken whole.
    ReadFault,
    /// The sink failed. A prefix of the text was written.
    WriteFault,
    /// The input isn't read. A line `refused LINE CAUSE` was written; of `replay` at a result line the run up to it before.
    Refused,
    /// A result line doesn't apply. The run up to it was written, and a line `unexpected LINE`.
    Unexpected,
    /// The source gives more than 16,777,216 bytes. Nothing was written; of `replay` behind the head the run up to the line that goes past them.
    TooLarge,
    /// The run of a trace isn't lawful. A line `unlawful LINE CLAUSE` was written.
    NotLawful,
}

impl Status {
    /// The exit status of the program: 0 to 8, in the order of the variants.
    pub fn code(self) -> u8
        ensures { result ≡ code_of self }
    {
        match self {
            Status::Done => 0,
            Status::NoMemory => 1,
            Status::Usage => 2,
            Status::ReadFault => 3,
            Status::WriteFault => 4,
            Status::Refused => 5,
            Status::Unexpected => 6,
            Status::TooLarge => 7,
            Status::NotLawful => 8,
        }
    }
}
