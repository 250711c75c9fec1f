//! A checker that returns whether an input is well formed.
ghost use Rattle.std.specs.Prelude.{MatchResult};
ghost use Rattle.legacy_uses.specs.Mail.{IsChecked, IsMailError};

use crate::mail::malformed_in_message;
use legacy_encodings::{Coders, RegistryError};
use std::alloc::Global;

/// Checks whether an input has no malformed sequence in the encoding of the name.
pub fn is_well_formed(
    alloc: Global,
    coders: &Coders,
    name: &str,
    input: &[u8],
) -> Result<bool, RegistryError>
    ensures { MatchResult result
        (λ is_so. IsChecked coders.now name.now input.now is_so)
        (λ error. IsMailError coders.now name.now input.now error) }
{
    let found = malformed_in_message(alloc, coders, name, input)?;
    Ok(found.is_empty())
}
