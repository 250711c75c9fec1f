//! A transcoder of files.
ghost use Rattle.std.specs.Prelude.{◌≡◌, MatchResult};
ghost use Rattle.legacy_encodings.specs.Registries.{IsTranscoded, IsTranscodeError};

use legacy_encodings::{Coders, TranscodeError, Transcoded};
use std::alloc::Global;

/// Transcodes a file from the encoding with one label to that with another.
///
/// Each malformed sequence becomes U+FFFD. Each character that the new encoding lacks becomes a numeric
/// character reference.
pub fn transcode_file(
    alloc: Global,
    coders: &Coders,
    from: &str,
    to: &str,
    file: &[u8],
) -> Result<Transcoded, TranscodeError>
    ensures { MatchResult result
        (λ transcoded. IsTranscoded coders.now from.now to.now file.now
        transcoded.bytes.items transcoded.malformed transcoded.unmappable)
        (λ error. IsTranscodeError coders.now from.now to.now file.now error) }
{
    coders.transcode(alloc, from, to, file)
}
