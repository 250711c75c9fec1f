//! A mail reader that reports the malformed sequences of a message.
ghost use Rattle.std.specs.Prelude.{◌≡◌, MatchResult};
ghost use Rattle.legacy_uses.specs.Mail.{AreMalformedIn, IsMailError};

use legacy_codecs::{MalformedSequence, malformed_sequences};
use legacy_encodings::{Coders, RegistryError};
use std::alloc::Global;

/// Finds every malformed sequence of a message in the encoding of the name, with its place.
pub fn malformed_in_message(
    alloc: Global,
    coders: &Coders,
    name: &str,
    message: &[u8],
) -> Result<Vec<MalformedSequence>, RegistryError>
    ensures { MatchResult result
        (λ found. AreMalformedIn coders.now name.now message.now found.items)
        (λ error. IsMailError coders.now name.now message.now error) }
{
    let mut decoder = coders.decoder(name)?;
    Ok(malformed_sequences(alloc, &mut decoder, message)?)
}
