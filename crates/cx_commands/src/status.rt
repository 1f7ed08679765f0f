//! How a command ends.

ghost use Rattle.std.specs.Prelude.{◌≡◌, ◌≤◌, ◌++◌, length};
ghost use Rattle.std.specs.Fmt.{decimal};
ghost use Rattle.cx_commands.specs.Faults.{status_of_image, status_of_log, status_of_out, status_of_record};
ghost use Rattle.cx_commands.specs.Faults.{status_of_replay};
ghost use Rattle.cx_commands.specs.declared.status.Status.TheVariants.{NoMemory as no_memory};
ghost use Rattle.cx_commands.specs.Status.{status_line, status_number};

use cx_codec::OutFault;
use cx_io::NoMemory;
use cx_live::ImageFault;
use cx_log::LogFault;
use cx_print::Text;
use cx_record::RecordFault;
use cx_replay::ReplayFault;

/// How a command ended.
#[derive(Clone, Copy, Debug, PartialEq, Eq)]
pub enum Status {
    /// All was done: the input was read to its end, and the output was written.
    Done,
    /// The words aren't a command's. Nothing was read or written.
    Usage,
    /// The input's first bad place is the field at this offset.
    Format(u64),
    /// The input's first bad place is this step.
    Broken(u64),
    /// The input is accepted, and what was asked for isn't there.
    NotThere,
    /// The source failed.
    ReadFault,
    /// The sink failed.
    WriteFault,
    /// The world failed.
    WorldFault,
    /// Memory was refused.
    NoMemory,
    /// The input asks for what isn't built yet, at this step.
    NotBuilt(u64),
}

impl Status {
    /// The exit status of the program.
    pub fn number(&self) -> u8
        ensures { result ≡ status_number self.now }
    {
        match self {
            Status::Done => 0,
            Status::Usage => 1,
            Status::Format(_) => 2,
            Status::Broken(_) => 3,
            Status::NotThere => 4,
            Status::ReadFault => 5,
            Status::WriteFault => 6,
            Status::WorldFault => 7,
            Status::NoMemory => 8,
            Status::NotBuilt(_) => 9,
        }
    }

    /// The line that the program prints on standard error, without its newline.
    pub fn line(&self) -> Text
        ensures { result ≡ status_line self.now }
    {
        match self {
            Status::Done => text(b"done"),
            Status::Usage => text(b"usage"),
            Status::Format(offset) => numbered(b"format at ", *offset),
            Status::Broken(step) => numbered(b"broken at ", *step),
            Status::NotThere => text(b"not there"),
            Status::ReadFault => text(b"read fault"),
            Status::WriteFault => text(b"write fault"),
            Status::WorldFault => text(b"world fault"),
            Status::NoMemory => text(b"no memory"),
            Status::NotBuilt(step) => numbered(b"not built at ", *step),
        }
    }
}

impl From<NoMemory> for Status {
    ghost from_gives = { λ _ s. s ≡ no_memory };

    fn from(_: NoMemory) -> Self {
        Status::NoMemory
    }
}

impl From<LogFault> for Status {
    ghost from_gives = { λ fault s. s ≡ status_of_log fault };

    fn from(fault: LogFault) -> Self {
        match fault {
            LogFault::Format(offset) => Status::Format(offset),
            LogFault::ReadFault => Status::ReadFault,
            LogFault::NoMemory => Status::NoMemory,
        }
    }
}

impl From<OutFault> for Status {
    ghost from_gives = { λ fault s. s ≡ status_of_out fault };

    fn from(fault: OutFault) -> Self {
        match fault {
            OutFault::WriteFault => Status::WriteFault,
            OutFault::NoMemory => Status::NoMemory,
        }
    }
}

impl From<ReplayFault> for Status {
    ghost from_gives = { λ fault s. s ≡ status_of_replay fault };

    fn from(fault: ReplayFault) -> Self {
        match fault {
            ReplayFault::Format(offset) => Status::Format(offset),
            ReplayFault::Broken(step) => Status::Broken(step),
            ReplayFault::ReadFault => Status::ReadFault,
            ReplayFault::NoMemory => Status::NoMemory,
        }
    }
}

impl From<ImageFault> for Status {
    ghost from_gives = { λ fault s. s ≡ status_of_image fault };

    fn from(fault: ImageFault) -> Self {
        match fault {
            ImageFault::Format(offset) => Status::Format(offset),
            ImageFault::ReadFault => Status::ReadFault,
            ImageFault::NoMemory => Status::NoMemory,
        }
    }
}

impl From<RecordFault> for Status {
    ghost from_gives = { λ fault s. s ≡ status_of_record fault };

    fn from(fault: RecordFault) -> Self {
        match fault {
            RecordFault::WorldFault => Status::WorldFault,
            RecordFault::WriteFault => Status::WriteFault,
            RecordFault::NoMemory => Status::NoMemory,
        }
    }
}

// A line of words alone.
fn text(words: &[u8]) -> Text
    requires { length words.now ≤ 16 }
    ensures { result ≡ words.now }
{
    let mut line = Text::new();
    line.push_bytes(words);
    line
}

// A line of words and a number.
fn numbered(words: &[u8], number: u64) -> Text
    requires { length words.now ≤ 16 }
    ensures { result ≡ words.now ++ decimal number }
{
    let mut line = text(words);
    line.push_decimal(number);
    line
}
