//! Places of the two bytes of a pair in its index: the sum of the places is the pointer.
//!
//! A byte that is no lead or trail has a place past the end of every index. One test of the pointer
//! therefore tests both bytes, and the range of the trail needs no branch.
ghost use Rattle.std.specs.Prelude.{◌≡◌, ℕ, ◌+◌};
ghost use Rattle.legacy_decoder_engine.specs.Places.{Tabulates};

/// Makes a table of the places of the 256 bytes.
///
/// The bytes of one or two ranges have the places 0, `$width`, twice `$width` and so on, in order. All other bytes have
/// the place `$none`.
// A macro, because the value of a `static` calls no function.
#[macro_export]
macro_rules! place_table {
    // The second range is empty.
    ($none:literal, $width:literal, $first:literal to $last:literal) => {
        $crate::place_table!($none, $width, $first to $last, 0x100 to 0xFF)
    };
    ($none:literal, $width:literal, $first:literal to $last:literal, $second:literal to $end:literal) => {
        $crate::place_table!(@ ($none, $width, $first, $last, $second, $end)
            0 1 2 3 4 5 6 7 8 9 10 11 12 13 14 15
            16 17 18 19 20 21 22 23 24 25 26 27 28 29 30 31
            32 33 34 35 36 37 38 39 40 41 42 43 44 45 46 47
            48 49 50 51 52 53 54 55 56 57 58 59 60 61 62 63
            64 65 66 67 68 69 70 71 72 73 74 75 76 77 78 79
            80 81 82 83 84 85 86 87 88 89 90 91 92 93 94 95
            96 97 98 99 100 101 102 103 104 105 106 107 108 109 110 111
            112 113 114 115 116 117 118 119 120 121 122 123 124 125 126 127
            128 129 130 131 132 133 134 135 136 137 138 139 140 141 142 143
            144 145 146 147 148 149 150 151 152 153 154 155 156 157 158 159
            160 161 162 163 164 165 166 167 168 169 170 171 172 173 174 175
            176 177 178 179 180 181 182 183 184 185 186 187 188 189 190 191
            192 193 194 195 196 197 198 199 200 201 202 203 204 205 206 207
            208 209 210 211 212 213 214 215 216 217 218 219 220 221 222 223
            224 225 226 227 228 229 230 231 232 233 234 235 236 237 238 239
            240 241 242 243 244 245 246 247 248 249 250 251 252 253 254 255)
    };
    (@ ($none:literal, $width:literal, $first:literal, $last:literal, $second:literal, $end:literal) $($byte:literal)*) => {
        [$(if $byte >= $first && $byte <= $last {
            ($byte - $first) * $width
        } else if $byte >= $second && $byte <= $end {
            ($byte - $second + $last - $first + 1) * $width
        } else {
            $none
        }),*]
    };
}

/// The places of the leads 81 to FE in an index whose rows have 190 entries.
pub static ROWS_OF_190: [u16; 256] = place_table!(65535, 190, 0x81 to 0xFE);

/// Returns the pointer of two bytes, from a table of places for each.
// Always inlined, so that the tables are constants where their entries are read.
#[inline(always)]
pub fn pair_pointer(leads: &[u16; 256], trails: &[u16; 256], lead: u8, trail: u8) -> usize
    ensures { (lead_place trail_place : ℕ → ℕ) → Tabulates lead_place leads.now →
        Tabulates trail_place trails.now → result ≡ lead_place lead + trail_place trail }
{
    usize::from(leads[usize::from(lead)]) + usize::from(trails[usize::from(trail)])
}
