//! The bytes of lanes that are written, by the number of UTF-8 bytes of each code unit.

/// Makes a table of rows, one for each way to choose one of four lists in each group.
///
/// The choice in the first group changes from row to row. A row is the lists that were chosen, joined, and filled up to
/// 16 entries with two numbers in turn. Two groups give 16 rows: the first three of
/// `row_table!([0 9]; [[1 2] [1] [2] []] [[3 4] [3] [4] []])` begin with `1, 2, 3, 4, 0, 9`, with `1, 3, 4, 0, 9` and
/// with `2, 3, 4, 0, 9`. With `sum;` in front, a row is the sum of lists of one number.
// A macro, because the value of a `static` calls no function.
#[macro_export]
macro_rules! row_table {
    // Each row is the lists that were chosen so far.
    (@rows $end:tt [$($row:tt)*]) => { [$($crate::row_table!(@row $end $row)),*] };
    (@rows $end:tt [$([$($list:tt)*])*] [$a:tt $b:tt $c:tt $d:tt] $($groups:tt)*) => {
        $crate::row_table!(@rows $end
            [$([$($list)* $a])* $([$($list)* $b])* $([$($list)* $c])* $([$($list)* $d])*] $($groups)*)
    };
    (@row sum [$([$count:literal])*]) => { 0 $(+ $count)* };
    (@row [$x:literal $y:literal] [$([$($entry:literal)*])*]) => {
        $crate::row_table!(@sixteen $($($entry)*)* $x $y $x $y $x $y $x $y $x $y $x $y $x $y $x $y)
    };
    (@sixteen $a:literal $b:literal $c:literal $d:literal $e:literal $f:literal $g:literal $h:literal
        $i:literal $j:literal $k:literal $l:literal $m:literal $n:literal $o:literal $p:literal $($more:literal)*) => {
        [$a, $b, $c, $d, $e, $f, $g, $h, $i, $j, $k, $l, $m, $n, $o, $p]
    };
    ($end:tt; $($groups:tt)*) => { $crate::row_table!(@rows $end [[]] $($groups)*) };
}

/// For each pattern of lengths, the places of the bytes that are written, in order.
///
/// A pattern has two bits for each code unit: it has one byte; it has at most two. The entries after the places have no
/// meaning.
pub(crate) static WRITTEN: [[u8; 16]; 256] = row_table!([0 0];
    [[2 3 0] [0] [3 0] [0]] [[6 7 4] [4] [7 4] [4]] [[10 11 8] [8] [11 8] [8]] [[14 15 12] [12] [15 12] [12]]);

/// The number of bytes that are written for each pattern of lengths.
pub(crate) static COUNTS: [u8; 256] = row_table!(sum;
    [[3] [1] [2] [1]] [[3] [1] [2] [1]] [[3] [1] [2] [1]] [[3] [1] [2] [1]]);

/// For each set of one-byte lanes among eight, the places of the bytes that are written, in order.
///
/// The other lanes have two bytes. The entries after the places have no meaning.
pub(crate) static SHORT_WRITTEN: [[u8; 16]; 256] = row_table!([0 0];
    [[0 1 2 3] [0 2 3] [0 1 2] [0 2]] [[4 5 6 7] [4 6 7] [4 5 6] [4 6]]
    [[8 9 10 11] [8 10 11] [8 9 10] [8 10]] [[12 13 14 15] [12 14 15] [12 13 14] [12 14]]);
