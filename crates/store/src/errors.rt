ghost use Rattle.std.specs.Prelude.{◌≡◌};
ghost use Rattle.store.specs.declared.errors.OpenError.TheVariants.{NoMemory, Refused};

use refusals::Refusal;
use std::alloc::AllocError;
use std::error::Error;
use std::fmt;

// Why no store was opened. Want of memory is no refusal and has no number.
#[derive(Clone, Copy, Debug, PartialEq, Eq)]
pub enum OpenError {
    Refused(Refusal),
    NoMemory(AllocError),
}

impl From<Refusal> for OpenError {
    ghost from_gives = { λ refusal given. given ≡ Refused refusal };

    fn from(e: Refusal) -> OpenError {
        OpenError::Refused(e)
    }
}

impl From<AllocError> for OpenError {
    ghost from_gives = { λ cause given. given ≡ NoMemory cause };

    fn from(e: AllocError) -> OpenError {
        OpenError::NoMemory(e)
    }
}

impl fmt::Display for OpenError {
    ghost use Rattle.std.specs.Prelude.{Some};
    ghost use Rattle.store.specs.Written.{open_error_text};

    ghost output = { λ e. Some (open_error_text e) };

    fn fmt<W: fmt::Write>(&self, f: &mut fmt::Formatter<W>) -> fmt::Result {
        match self {
            OpenError::Refused(refusal) => write!(f, "{refusal}"),
            OpenError::NoMemory(_) => f.write_str("no memory for the store"),
        }
    }
}

impl Error for OpenError {}
