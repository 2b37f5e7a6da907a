// The one search of the level queries: sure is its answer on the lows, possible its answer on the highs.

ghost use Rattle.std.specs.Prelude.{◌≡◌};
ghost use Rattle.quantile.specs.Call.{total_found};

use intervals::SummableRow;

// The smallest total whose entries, summed from total 0, reach the level.
pub fn quantile_of(row: SummableRow, level: i64) -> Option<usize>
    ensures { result ≡ total_found row.entry.entries.now level }
{
    let mut sum: i64 = 0;
    for (x, entry) in row.entries.iter().enumerate() {
        sum += *entry;
        if level <= sum {
            return Some(x);
        }
    }
    None
}
