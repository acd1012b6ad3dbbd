// Why a line is not carried out.
ghost use Rattle.std.specs.Prelude.{◌≡◌, Some};
ghost use Rattle.chunkctl.specs.declared.trouble.Trouble.TheVariants.{Refused, Error};
ghost use Rattle.chunkctl.specs.declared.trouble.Complaint.TheVariants.{NoMemory};
ghost use Rattle.chunkctl.specs.Shown.{complaint_text, trouble_text};

use form::fault::Fault;
use std::alloc::{AllocError, AllocFailed};
use std::fmt;

// What is wrong with a line, or with its moment.
#[derive(Clone, Copy, Debug)]
pub enum Complaint {
    NoMemory,
    LineTooLong,
    UnknownCommand,
    WordCount,
    Number,
    Hex,
    Shape,
    DataType,
    Stage,
    StageKinds,
    Switch,
    BufferTooLarge,
    NoStages,
    ByteLength,
    ArrayLength,
    NoForm,
    NoChain,
    Pages,
    FrontTooLong,
    NoCell,
}

impl Complaint {
    pub fn text(&self) -> &'static str
        ensures { result.now ≡ complaint_text self.now }
    {
        match self {
            Complaint::NoMemory => "no memory",
            Complaint::LineTooLong => "line too long",
            Complaint::UnknownCommand => "no such command",
            Complaint::WordCount => "wrong number of words",
            Complaint::Number => "a number is expected, of at most 64 bits",
            Complaint::Hex => "lower-case hexadecimal is expected, or -",
            Complaint::Shape => "lengths joined by x are expected, or -",
            Complaint::DataType => "no such data type",
            Complaint::Stage => "no such stage",
            Complaint::StageKinds => "array stages, one bytes stage or byte stages are expected",
            Complaint::Switch => "on or off is expected",
            Complaint::BufferTooLarge => "buffer too large",
            Complaint::NoStages => "no stages yet",
            Complaint::ByteLength => "stages over bytes take a number for the decoded length",
            Complaint::ArrayLength => "stages over arrays take - for the decoded length",
            Complaint::NoForm => "no form yet",
            Complaint::NoChain => "no chain yet",
            Complaint::Pages => "pages joined by , are expected, or -",
            Complaint::FrontTooLong => "more bytes than the buffer has",
            Complaint::NoCell => "no cell yet",
        }
    }
}

impl fmt::Display for Complaint {
    ghost output = { λ c. Some (complaint_text c) };

    fn fmt<W: fmt::Write>(&self, f: &mut fmt::Formatter<W>) -> fmt::Result {
        f.write_str(self.text())
    }
}

impl std::error::Error for Complaint {}

impl From<AllocError> for Complaint {
    ghost from_gives = { λ _ c. c ≡ NoMemory };

    fn from(_e: AllocError) -> Complaint {
        Complaint::NoMemory
    }
}

#[derive(Clone, Copy, Debug)]
pub enum Trouble {
    // the library refuses
    Refused(Fault),
    // the line is no command, or makes no sense now
    Error(Complaint),
}

impl fmt::Display for Trouble {
    ghost output = { λ t. Some (trouble_text t) };

    fn fmt<W: fmt::Write>(&self, f: &mut fmt::Formatter<W>) -> fmt::Result {
        match self {
            Trouble::Refused(fault) => write!(f, "{fault}"),
            Trouble::Error(complaint) => {
                f.write_str("error: ")?;
                f.write_str(complaint.text())
            }
        }
    }
}

impl std::error::Error for Trouble {}

impl From<Fault> for Trouble {
    ghost from_gives = { λ e r. r ≡ Refused e };

    fn from(fault: Fault) -> Trouble {
        Trouble::Refused(fault)
    }
}

impl From<Complaint> for Trouble {
    ghost from_gives = { λ e r. r ≡ Error e };

    fn from(complaint: Complaint) -> Trouble {
        Trouble::Error(complaint)
    }
}

impl From<AllocError> for Trouble {
    ghost from_gives = { λ _ r. r ≡ Error NoMemory };

    fn from(_e: AllocError) -> Trouble {
        Trouble::Error(Complaint::NoMemory)
    }
}

// The value for which there is no memory is dropped.
impl<T: Drop> From<AllocFailed<T>> for Trouble {
    ghost from_gives = { λ _ r. r ≡ Error NoMemory };

    fn from(failed: AllocFailed<T>) -> Trouble {
        Trouble::from(AllocError::from(failed))
    }
}
