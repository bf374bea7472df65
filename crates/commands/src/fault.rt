// Why nothing is read.
ghost use Rattle.std.specs.Prelude.{◌≡◌, alloc_error};
ghost use Rattle.commands.specs.Read.{fault_in};
ghost use Rattle.commands.specs.declared.fault.TextFault.TheVariants.{Memory};

use crate::command::Usage;
use std::alloc::{AllocError, AllocFailed};

// Why a text is not read: it is not in its form, or memory is wanting.
#[derive(Clone, Copy, Debug, PartialEq, Eq)]
pub enum TextFault {
    Malformed,
    Memory(AllocError),
}

impl From<AllocError> for TextFault {
    ghost from_gives = { λ e f. f ≡ Memory e };

    fn from(error: AllocError) -> TextFault {
        TextFault::Memory(error)
    }
}

impl<T: Drop> From<AllocFailed<T>> for TextFault {
    ghost from_gives = { λ _ f. f ≡ Memory alloc_error };

    fn from(error: AllocFailed<T>) -> TextFault {
        TextFault::Memory(AllocError::from(error))
    }
}

// Why a line is no command: it is not in the form that its first word asks for, or memory is wanting.
// Apart from `TextFault`, which has no form to tell: a generic fault would be no plainer for the two.
#[derive(Clone, Copy, Debug, PartialEq, Eq)]
pub enum ParseFault {
    Malformed(Usage),
    Memory(AllocError),
}

impl TextFault {
    // The fault of a line of this form.
    pub(crate) fn in_form(self, form: Usage) -> ParseFault
        ensures { result ≡ fault_in form self }
    {
        match self {
            TextFault::Malformed => ParseFault::Malformed(form),
            TextFault::Memory(error) => ParseFault::Memory(error),
        }
    }
}
