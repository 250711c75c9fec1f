//! A destination that keeps the scalars themselves.
ghost use Rattle.std.specs.Prelude.{◌≡◌, ℕ, ◌+◌, ◌-◌, ◌^◌, ◌<◌, ◌≤◌, [], length, take, refl, All};
ghost use Rattle.std.specs.Char.{IsScalar};
ghost use Rattle.legacy_text.specs.EncodingForm.{EncodingForm, Utf8, Utf16, unit_count, total_unit_count, bmp_need, wide_need};

use legacy_base::Destination;
use std::marker::PhantomData;

/// UTF-8 or UTF-16, as a type.
pub trait OutputForm {
    /// The encoding form.
    ghost form: { EncodingForm };

    /// The code units of the longest scalar up to U+FFFF: 3 in UTF-8, 1 in UTF-16.
    const BMP_ROOM: usize;

    /// The code units of the longest scalar: 4 in UTF-8, 2 in UTF-16.
    const WIDE_ROOM: usize;

    ghost BMP_ROOM: { ℕ };

    ghost WIDE_ROOM: { ℕ };

    /// Returns the number of code units of a scalar: 1 to 4 in UTF-8, 1 or 2 in UTF-16.
    fn unit_count(c: char) -> usize
        ensures value { result ≡ unit_count form c }
        ensures some { 1 ≤ result };

    ghost bmp_is: { BMP_ROOM ≡ bmp_need form };

    ghost wide_is: { WIDE_ROOM ≡ wide_need form };
}

/// UTF-8, whose code units are bytes.
pub struct Utf8Form;

/// UTF-16, whose code units have 16 bits.
pub struct Utf16Form;

impl OutputForm for Utf8Form {
    ghost form = { Utf8 };

    fn unit_count(c: char) -> usize {
        c.len_utf8()
    }

    const BMP_ROOM: usize = 3;

    const WIDE_ROOM: usize = 4;

    ghost BMP_ROOM = { 3 };

    ghost WIDE_ROOM = { 4 };

    ghost bmp_is = { refl };

    ghost wide_is = { refl };
}

impl OutputForm for Utf16Form {
    ghost form = { Utf16 };

    fn unit_count(c: char) -> usize {
        c.len_utf16()
    }

    const BMP_ROOM: usize = 1;

    const WIDE_ROOM: usize = 2;

    ghost BMP_ROOM = { 1 };

    ghost WIDE_ROOM = { 2 };

    ghost bmp_is = { refl };

    ghost wide_is = { refl };
}

/// An output that keeps the scalars themselves, at the start of a lent slice.
///
/// It counts the code units that they have in UTF-8 or in UTF-16. For a decoder it is an output of
/// `room` code units.
#[derive(Drop)]
pub struct ScalarBuffer<'a, F: OutputForm> {
    scalars: &'a mut [char],
    count: usize,
    written: usize,
    room: usize,
    form: PhantomData<F>,
    ghost fits: { count + room ≤ length scalars.now },
    ghost small: { written + room < 2 ^ 64 },
    ghost scalar: { All IsScalar (take count scalars.now) },
    ghost counted: { written ≡ total_unit_count F.form (take count scalars.now) },
}

impl<'a, F: OutputForm> ScalarBuffer<'a, F> {
    ghost use Rattle.legacy_codecs.specs.ScalarBuffers.{kept_scalars, free_units, scalars_loan, scalars_buffer};

    /// Returns an output without scalars that has `room` code units free.
    ///
    /// `room` is at most the length of the slice.
    pub fn new(scalars: &'a mut [char], room: usize) -> ScalarBuffer<'a, F>
        requires { room ≤ length scalars.old }
        ensures loan { scalars_loan result ≡ scalars.entry.ghost_name }
        ensures kept { kept_scalars result ≡ [] }
        ensures free { free_units result ≡ room }
        ensures same { scalars_buffer result ≡ scalars.old }
    {
        ScalarBuffer {
            scalars,
            count: 0,
            written: 0,
            room,
            form: PhantomData,
        }
    }

    /// Returns the kept scalars, in the order in which they were written.
    pub fn scalars(&self) -> &[char]
        ensures value { result.now ≡ kept_scalars self.now }
        ensures scalar { All IsScalar result.now }
    {
        &self.scalars[..self.count]
    }
}

impl<F: OutputForm> Destination for ScalarBuffer<'_, F> {
    ghost use Rattle.legacy_codecs.specs.ScalarBuffers.{kept_units, free_units, scalars_loan};

    ghost form = { F.form };

    ghost contents = { kept_units F.form };

    ghost room = { free_units };

    ghost loan = { scalars_loan };

    const BMP_ROOM: usize = F::BMP_ROOM;

    const WIDE_ROOM: usize = F::WIDE_ROOM;

    fn narrow() -> usize
        ensures { result ≡ bmp_need F.form }
    {
        F::BMP_ROOM
    }

    fn wide() -> usize
        ensures { result ≡ wide_need F.form }
    {
        F::WIDE_ROOM
    }

    #[inline]
    fn free(&self) -> usize {
        self.room
    }

    #[inline]
    fn written(&self) -> usize {
        self.written
    }

    #[inline]
    fn put(&mut self, c: char) {
        let len = F::unit_count(c);
        self.scalars[self.count] = c;
        self.count += 1;
        self.written += len;
        self.room -= len;
    }
}
