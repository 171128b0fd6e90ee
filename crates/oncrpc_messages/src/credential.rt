//! The fields of a credential.
ghost use Rattle.std.specs.Prelude.{◌≡◌, ◌+◌, IfOk, length, option_map};
ghost use Rattle.rpc_message.specs.View.{lent_view};
ghost use Rattle.oncrpc_messages.specs.Bodies.{TellsFields};
ghost use Rattle.oncrpc_messages.specs.Private.Kept.{IsKeptPart};
ghost use Rattle.oncrpc_messages.specs.Settings.{settings_of};

use crate::form::Form;
use crate::refusal::Refusal;
use crate::settings::Reading;
use crate::values::{Terms, Values, values_of};
use rpc_message::{AUTH_SYS, LentAuth};
use std::alloc::Global;
use xdr_types::NoMemory;

/// Where the body of the credential begins in a call, after six numbers, the flavor and the length (RFC 5531 sections
/// 8.2 and 9).
const START: usize = 32;

/// What is made of what is printed of a credential, and what is refused of it.
#[derive(Drop)]
pub struct Fields {
    /// The fields of AUTH_SYS as JSON, where its body has them. Of another flavor there are none.
    pub text: Option<Vec<u8>>,
    /// Why the body of AUTH_SYS has none.
    pub refusal: Option<Refusal>,
}

/// What is printed of the credential of a call, and what is refused of it (RFC 5531 appendix A).
pub fn fields_of(
    alloc: Global,
    reading: &Reading<'_, '_>,
    cred: LentAuth<'_>,
) -> Result<Fields, NoMemory>
    ensures { IfOk result (λ f. IsKeptPart reading.now.show
        (λ fields. TellsFields (settings_of reading.now.settings.now) 32 (lent_view cred.entry) fields f.refusal)
        (option_map (λ t. t.items) f.text)) }
{
    if cred.flavor != AUTH_SYS {
        return Ok(Fields {
            text: None,
            refusal: None,
        });
    }
    let settings = reading.settings;
    let heads = settings.heads;
    let kinds = [heads.auth_sys];
    let terms = Terms {
        schema: &heads.declared.schema,
        limits: settings.limits,
        form: Form::Json,
        show: reading.show,
    };
    match values_of(alloc, &terms, &kinds, cred.body)? {
        Values::Shown(text) => Ok(Fields {
            text: Some(text),
            refusal: None,
        }),
        Values::Refused(refusal) => Ok(Fields {
            text: None,
            refusal: Some(Refusal {
                why: refusal.why,
                at: START + refusal.at,
            }),
        }),
    }
}
