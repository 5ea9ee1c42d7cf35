//! How a run ends.
ghost use Rattle.std.specs.Prelude.{◌≡◌};
ghost use Rattle.re_tool.specs.Status.{code_of};

/// How a run ended. `docs/SESSION.md` says when each comes.
#[derive(Clone, Copy, Debug, PartialEq, Eq)]
pub enum Status {
    /// The input was read to its end.
    Done,
    /// The words of the command line aren't accepted.
    Words,
    /// The program part was refused.
    Program,
    /// A store is bad.
    Store,
    /// A store is another program's.
    OtherProgram,
    /// A disk failed while its device was opened.
    Disk,
    /// The input failed.
    Input,
    /// The output failed.
    Output,
    /// Memory ran out.
    Memory,
    /// More input came than may be taken.
    TooLong,
    /// A line isn't one that the command takes.
    Line,
}

impl Status {
    /// The exit code of the process, from 0 to 11.
    pub fn code(&self) -> u8
        ensures { result ≡ code_of self.now }
    {
        match self {
            Status::Done => 0,
            Status::Words => 2,
            Status::Program => 3,
            Status::Store => 4,
            Status::OtherProgram => 5,
            Status::Disk => 6,
            Status::Input => 7,
            Status::Output => 8,
            Status::Memory => 9,
            Status::TooLong => 10,
            Status::Line => 11,
        }
    }
}
