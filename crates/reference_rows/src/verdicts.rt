// Whether an answer is one that a row's results allow: nothing where a number of the row cannot be read.
ghost use Rattle.std.specs.Prelude.{◌≡◌};
ghost use Rattle.reference_rows.specs.Verdicts.{by_refusal, by_value, by_ranges, by_exact, by_results, verdict_of};

use crate::answers::Kind;
use crate::{cells, results};
use refusals::Parts;

// A row that names a refusal allows no values.
pub fn judge(kind: Kind, results: &[u8], said: Parts) -> Option<bool>
    ensures { result ≡ verdict_of kind results.now said }
{
    let refused = cells::value(results, b"refused");
    if refused.is_empty() {
        by_results(kind, results, said)
    } else {
        refusal(refused, said)
    }
}

// By a match, since the kinds name other results.
fn by_results(kind: Kind, results: &[u8], said: Parts) -> Option<bool>
    ensures { result ≡ by_results kind results.now said }
{
    match kind {
        Kind::Share => share_ranges(results, said),
        Kind::ShareInSheet => share_exact(results, said),
        Kind::Factor => one_value(results, b"note1_m_rule_min", b"note1_m_rule_max", said),
        Kind::FactorInSheet => one_value(results, b"factor_min", b"factor_max", said),
        Kind::Current => one_value(results, b"i_rule_min", b"i_rule_max", said),
        Kind::CurrentInSheet => one_value(results, b"current_min", b"current_max", said),
    }
}

// Of `NUMBER PLACE`.
fn refusal(refused: &[u8], said: Parts) -> Option<bool>
    ensures { result ≡ by_refusal refused.now said }
{
    let number = cells::whole(cells::part(refused, b' ', 0))?;
    let place = cells::whole(cells::part(refused, b' ', 1))?;
    Some(results::refuses(said, number, place))
}

// A factor or a current, by the names of the least and the greatest that is allowed.
fn one_value(results: &[u8], least: &[u8], most: &[u8], said: Parts) -> Option<bool>
    ensures { result ≡ by_value least.now most.now results.now said }
{
    let from = cells::integer(results, least)?;
    let to = cells::integer(results, most)?;
    Some(results::is_value(said, from, to))
}

fn share_ranges(results: &[u8], said: Parts) -> Option<bool>
    ensures { result ≡ by_ranges results.now said }
{
    let low_min = cells::integer(results, b"low_min")?;
    let low_max = cells::integer(results, b"low_max")?;
    let high_min = cells::integer(results, b"high_min")?;
    let high_max = cells::integer(results, b"high_max")?;
    Some(results::in_ranges(said, low_min, low_max, high_min, high_max))
}

// By the exact share, since the ranges beside it are for pairs at most 20 apart.
fn share_exact(results: &[u8], said: Parts) -> Option<bool>
    ensures { result ≡ by_exact results.now said }
{
    let exact = cells::value(results, b"G_millionths");
    let floor = text::signed_of(cells::part(exact, b'.', 0))?;
    // 0 where all digits after the point are, or else 1.
    let more = text::number_of(cells::part(exact, b'.', 1), 1)?;
    Some(results::is_share_of(said, floor, more))
}
