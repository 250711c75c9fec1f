//! The check of GB18030's private-use rows, and the look-up in them.
ghost use Rattle.std.specs.Prelude.{◌≡◌, ℕ, ◌<◌, ◌≤◌, length, slice_index_or};
ghost use Rattle.std.specs.Prelude.{MatchResult, Some, None};
ghost use Rattle.std.specs.Int.{is_in_range};
ghost use Rattle.legacy_tables.specs.Indexes.{gb18030_pua_of};
ghost use Rattle.legacy_tables.specs.TableChecks.{follows_scalar, is_row_scalar, are_row_bytes};
ghost use Rattle.legacy_tables.specs.TableChecks.{row_fault, rows_fault};

use super::TableError;

/// The private-use rows of GB18030-2022: scalar value, lead and trail (Encoding Standard, "gb18030 encoder").
///
/// In index gb18030 these pairs of bytes belong to other scalars. The encoder also uses them for private-use scalars.
pub const GB18030_2022_PUA: [(u16, u8, u8); 18] = [
    (0xE78D, 0xA6, 0xD9),
    (0xE78E, 0xA6, 0xDA),
    (0xE78F, 0xA6, 0xDB),
    (0xE790, 0xA6, 0xDC),
    (0xE791, 0xA6, 0xDD),
    (0xE792, 0xA6, 0xDE),
    (0xE793, 0xA6, 0xDF),
    (0xE794, 0xA6, 0xEC),
    (0xE795, 0xA6, 0xED),
    (0xE796, 0xA6, 0xF3),
    (0xE81E, 0xFE, 0x59),
    (0xE826, 0xFE, 0x61),
    (0xE82B, 0xFE, 0x66),
    (0xE82C, 0xFE, 0x67),
    (0xE832, 0xFE, 0x6D),
    (0xE843, 0xFE, 0x7E),
    (0xE854, 0xFE, 0x90),
    (0xE864, 0xFE, 0xA0),
];

/// Checks whether the scalar is above the one before it.
fn follows(before: Option<u16>, scalar: u16) -> bool
    ensures { result ≡ follows_scalar before scalar }
{
    match before {
        None => true,
        Some(earlier) => earlier < scalar,
    }
}

/// Checks whether a row may have the scalar.
fn is_allowed(scalar: u16) -> bool
    ensures { result ≡ is_row_scalar scalar }
{
    matches!(scalar, 0xE000..=0xF8FF) && scalar != 0xE5E5
}

/// Checks whether the bytes are a lead and a trail.
fn are_lead_and_trail(lead: u8, trail: u8) -> bool
    ensures { result ≡ are_row_bytes lead trail }
{
    matches!(lead, 0x81..=0xFE) && matches!(trail, 0x40..=0x7E | 0x80..=0xFE)
}

/// Returns the fault of the row at a place, given the scalar before it.
fn fault_of(place: usize, before: Option<u16>, row: (u16, u8, u8)) -> Option<TableError>
    ensures { result ≡ row_fault place before row }
{
    if !follows(before, row.0) {
        return Some(TableError::PuaOrder(place));
    }
    if !is_allowed(row.0) {
        return Some(TableError::PuaScalar(place));
    }
    if !are_lead_and_trail(row.1, row.2) {
        return Some(TableError::PuaBytes(place));
    }
    None
}

/// Checks the rows by rising places, each by its order, its scalar and its bytes.
pub(super) fn check_rows(rows: &[(u16, u8, u8)]) -> Result<(), TableError>
    ensures { let found = rows_fault 0 None rows.now in
        MatchResult result (λ _. found ≡ None) (λ fault. found ≡ Some fault) }
{
    let mut before = None;
    for (place, row) in rows.iter().enumerate() {
        match fault_of(place, before, *row) {
            None => before = Some(row.0),
            Some(fault) => return Err(fault),
        }
    }
    Ok(())
}

/// Returns the number of rows with a lower scalar. The scalars rise, so these are the first rows.
fn rows_below(rows: &[(u16, u8, u8)], scalar: u32) -> usize
    requires { rows_fault 0 None rows.now ≡ None }
    ensures within { result ≤ length rows.now }
    ensures below { (k : ℕ) → k < result → (slice_index_or rows.now k (0, 0, 0)).0 < scalar }
    ensures ahead { (k : ℕ) → result ≤ k → k < length rows.now →
        scalar ≤ (slice_index_or rows.now k (0, 0, 0)).0 }
{
    rows.partition_point(|row| u32::from(row.0) < scalar)
}

/// Checks whether the scalar is in the block of private use.
#[inline(always)]
fn is_private_use(scalar: char) -> bool
    ensures { result ≡ is_in_range 0xE000 0xF8FF scalar }
{
    matches!(u32::from(scalar), 0xE000..=0xF8FF)
}

/// Returns the lead and the trail of the row that has the scalar.
// Most scalars are not for private use, and need no search.
#[tactic(auto, using(crate::proofs::PrivateUse::row_search))]
#[inline]
pub(super) fn row_bytes(rows: &[(u16, u8, u8)], scalar: char) -> Option<(u8, u8)>
    requires { rows_fault 0 None rows.now ≡ None }
    ensures { result ≡ gb18030_pua_of rows.now scalar }
{
    if !is_private_use(scalar) {
        return None;
    }
    searched_bytes(rows, scalar)
}

/// Returns the same as `row_bytes`, by a search of the rows.
#[tactic(auto, using(crate::proofs::PrivateUse::row_search))]
fn searched_bytes(rows: &[(u16, u8, u8)], scalar: char) -> Option<(u8, u8)>
    requires { rows_fault 0 None rows.now ≡ None }
    ensures { result ≡ gb18030_pua_of rows.now scalar }
{
    let place = rows_below(rows, u32::from(scalar));
    if place == rows.len() {
        return None;
    }
    let (found, lead, trail) = rows[place];
    if u32::from(found) != u32::from(scalar) {
        return None;
    }
    Some((lead, trail))
}
