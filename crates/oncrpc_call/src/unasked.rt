//! Why nothing is asked.
ghost use Rattle.std.specs.Prelude.{◌≡◌};
ghost use Rattle.oncrpc_call.specs.declared.unasked.Unasked.TheVariants as unasked;

use oncrpc_procedures::Unnamed;
use thiserror::Error;
use xdr_codec::DecodeFault;
use xdr_types::NoMemory;

/// Why a name and arguments ask for no call.
#[derive(Clone, Copy, Debug, PartialEq, Eq, Error)]
pub enum Unasked {
    /// The name names no procedure.
    #[error("{0}")]
    Name(Unnamed),
    /// The arguments have more than 16777216 bytes.
    #[error("the arguments are too long")]
    TooLong,
    /// A value is to be of a kind that the schema does not have. What a text declares has each.
    #[error("a kind that there is not")]
    Kind,
    /// The argument with this number, from 0, is refused.
    #[error("argument {at}: {fault}")]
    Argument { at: usize, fault: DecodeFault },
    /// So many bytes follow the last argument.
    #[error("{count} bytes after the last argument")]
    Follows { count: usize },
    /// Memory was refused.
    #[error("out of memory")]
    NoMemory,
}

impl From<Unnamed> for Unasked {
    ghost from_gives = { λ u e. e ≡ unasked.Name u };

    fn from(why: Unnamed) -> Unasked {
        Unasked::Name(why)
    }
}

impl From<NoMemory> for Unasked {
    ghost from_gives = { λ _ e. e ≡ unasked.NoMemory };

    fn from(_: NoMemory) -> Unasked {
        Unasked::NoMemory
    }
}
