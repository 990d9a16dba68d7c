//! Rows that are added to others.

ghost use Rattle.std.specs.Prelude.{◌≡◌, length};
ghost use Rattle.layer_sums.specs.Sums.{AreWithin, plus};

/// Adds each number of a row to the one at its place. The sums so far are those of at most four thousand million values.
pub(crate) fn add_row(sums: &mut [i64], row: &[i64])
    requires wide { length row.now ≡ length sums.old }
    requires room { AreWithin 4000000000 sums.old }
    requires small { AreWithin 1 row.now }
    ensures { sums.new ≡ plus sums.old row.now }
{
    for k in 0..row.len() {
        sums[k] += row[k];
    }
}
