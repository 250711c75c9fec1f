//! The code units of the outputs.
ghost use Rattle.std.specs.Prelude.{◌≡◌, ◌+◌, ◌<◌, ◌≤◌, ℕ, List, ◌++◌, length, take, MatchOption};
ghost use Rattle.legacy_text.specs.EncodingForm.{EncodingForm, bmp_need, code_units};

/// A code unit of an output: a byte of UTF-8, or a code unit of UTF-16.
pub trait CodeUnit: Copy {
    /// The encoding form of the outputs.
    ghost form: { EncodingForm };

    /// The numbers of code units.
    ghost units: { List Self → List ℕ };

    /// Writes U+FFFD at a place, and returns the place after it, or `None` if it has no room.
    fn replace(output: &mut [Self], at: usize) -> Option<usize>
        ensures room { MatchOption result (length output.old < at + bmp_need form)
            (λ end. (end ≡ at + bmp_need form) × (end ≤ length output.new)) }
        ensures text { MatchOption result (output.new ≡ output.old) (λ end.
            units (take end output.new) ≡ units (take at output.old) ++ code_units form 0xFFFD) };

    /// The numbers of two lists, one after the other, are those of both.
    ghost units_append: { (xs ys : List Self) → units (xs ++ ys) ≡ units xs ++ units ys };

    /// There are as many numbers as code units.
    ghost units_length: { (xs : List Self) → length (units xs) ≡ length xs };
}

impl CodeUnit for u8 {
    ghost use Rattle.std.specs.Prelude.{refl};
    ghost use Rattle.legacy_text.specs.EncodingForm.{Utf8};

    ghost form = { Utf8 };

    ghost units = { λ xs. xs };

    fn replace(output: &mut [u8], at: usize) -> Option<usize> {
        if output.len().saturating_sub(at) < 3 {
            return None;
        }
        output[at] = 0xEF;
        output[at + 1] = 0xBF;
        output[at + 2] = 0xBD;
        Some(at + 3)
    }

    ghost units_append = { λ xs ys. refl };

    ghost units_length = { λ xs. refl };
}

impl CodeUnit for u16 {
    ghost use Rattle.std.specs.Prelude.{refl};
    ghost use Rattle.legacy_text.specs.EncodingForm.{Utf16};

    ghost form = { Utf16 };

    ghost units = { λ xs. xs };

    fn replace(output: &mut [u16], at: usize) -> Option<usize> {
        if at >= output.len() {
            return None;
        }
        output[at] = 0xFFFD;
        Some(at + 1)
    }

    ghost units_append = { λ xs ys. refl };

    ghost units_length = { λ xs. refl };
}
