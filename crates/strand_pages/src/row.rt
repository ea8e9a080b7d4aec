//! The cells of the page around an address, as the board has them.

ghost use Rattle.std.specs.Prelude.{◌≡◌, ◌<◌, ◌≤◌, IfNone, IfSome, IsSome, None, OnSome, length};
ghost use Rattle.frame_engine.specs.Flat.{cell_in};
ghost use Rattle.strand_pages.specs.Logs.{page_around, page_from};

use crate::page::CELLS;

/// The cells of the page that has the one of this index, from the page's first on.
fn page_from(row: &[i64], index: usize) -> &[i64]
    requires { index < length row.now }
    ensures page { result.now ≡ page_from row.now index }
    ensures few { length result.now ≤ 64 }
{
    let first = index / CELLS * CELLS;
    if row.len() - first > CELLS {
        &row[first..first + CELLS]
    } else {
        &row[first..]
    }
}

/// The cells of the address's page as the row of the board's cells has them, from the page's first cell on; the last page may have fewer than
/// 64. None where the row has no such cell.
pub fn page_around(row: &[i64], at: i64) -> Option<&[i64]>
    ensures page { IfSome result (λ page. page.now ≡ page_around row.now at) }
    ensures few { IfSome result (λ page. length page.now ≤ 64) }
    ensures there { OnSome result (IsSome (cell_in row.now at)) }
    ensures none { IfNone result (cell_in row.now at ≡ None) }
{
    if at < 0 {
        return None;
    }
    let index = at as usize;
    if index >= row.len() {
        return None;
    }
    Some(page_from(row, index))
}
