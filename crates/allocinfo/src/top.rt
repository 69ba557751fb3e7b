ghost use Rattle.std.specs.Prelude.{ℕ, ◌≡◌, ◌++◌, IfOk, OnOk, OnErr};
ghost use Rattle.std.specs.Ordering.{is_lt};
ghost use Rattle.codetag.specs.Prefix.{IsPrefix};
ghost use Rattle.allocinfo.specs.Text.{AreRows};
ghost use Rattle.allocinfo.specs.Rank.{holds_more, ranked, IsRanking, top_text};

use crate::print::print_rows;
use crate::rows::Row;
use std::alloc::{AllocError, Global};
use std::cmp::Ordering;
use tag_section::Sections;

/// Appends the header and the lines of the first `n` rows by greater bytes, then greater calls,
/// then the earlier place.
pub fn print_top(
    alloc: Global,
    sections: &Sections,
    rows: &[Row],
    n: u32,
    out: &mut Vec<u8>,
) -> Result<(), AllocError>
    requires { AreRows sections.now rows.now }
    ensures ok { OnOk result (out.new.items ≡ out.old.items ++ top_text n sections.now rows.now) }
    ensures err { OnErr result (IsPrefix out.old.items out.new.items) }
{
    let ranking = ranked_rows(alloc, rows)?;
    let count = ranking.len().min(n as usize);
    print_rows(sections, &ranking[..count], out)
}

/// The rows by greater bytes, then greater calls, then the earlier place.
pub fn ranked_rows(alloc: Global, rows: &[Row]) -> Result<Vec<Row>, AllocError>
    ensures value { IfOk result (λ ranking. ranking.items ≡ ranked rows.now) }

    ensures ranking { IsRanking rows.now (ranked rows.now) }
{
    sorted_rows(alloc, rows)
}

fn sorted_rows(alloc: Global, rows: &[Row]) -> Result<Vec<Row>, AllocError>
    ensures { IfOk result (λ ranking. ranking.items ≡ ranked rows.now) }
{
    let mut ranking = Vec::from_slice(alloc, rows)?;
    ranking.sort_by(compare)?;
    Ok(ranking)
}

// What holds more comes first.
fn compare(one: &Row, other: &Row) -> Ordering
    ensures { is_lt result ≡ holds_more one.now other.now }
{
    other
        .bytes
        .cmp(&one.bytes)
        .then(other.calls.cmp(&one.calls))
}
