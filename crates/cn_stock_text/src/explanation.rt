//! The explanation of a certificate by stocks.
ghost use Rattle.std.specs.Prelude.{◌≡◌, ◌++◌, OnOk, option_map, string_bytes};
ghost use Rattle.cn_stock_cert.specs.Right.{IsRight};
ghost use Rattle.cn_stock_text.specs.Explanation.{bounds_text, head_line, least_text, stock_explanation};
ghost use Rattle.cn_stock_text.specs.Known.{IsKnownClaim};

use crate::lasting::push_lasting;
use crate::most::push_most;
use crate::witness::push_witness;
use cn_choice::laws::choice_by_teams;
use cn_joins::Join;
use cn_pieces::push_pieces;
use cn_sentences::alone_line;
use cn_stock_cert::{StockCertificate, StockClaim};
use cn_table::Table;
use std::alloc::{AllocError, Global};

/// Appends what the bounds say of the number.
fn push_bounds(
    text: &mut String,
    at_least: Option<u8>,
    at_most: Option<u8>,
) -> Result<(), AllocError>
    ensures { OnOk result (string_bytes text.new
        ≡ string_bytes text.old ++ bounds_text at_least at_most) }
{
    match (at_least, at_most) {
        (None, _) => text.push_str("infinite"),
        (Some(n), None) => write!(text, "at least {n}"),
        (Some(n), Some(m)) if n == m => write!(text, "{n}"),
        (Some(n), Some(m)) => write!(text, "{n} to {m}"),
    }
}

/// The bounds of a certificate.
fn bounds_of(certificate: &StockCertificate) -> (Option<u8>, Option<u8>)
    ensures least { result.0 ≡ certificate.now.at_least }
    ensures most { result.1 ≡ certificate.now.at_most }
{
    (certificate.at_least, certificate.at_most)
}

/// What a certificate gives for its lower bound.
fn claim_of(certificate: &StockCertificate) -> &StockClaim
    ensures { result.now ≡ certificate.now.least }
{
    &certificate.least
}

/// The joins of a certificate, if it has an upper bound.
fn joins_of(certificate: &StockCertificate) -> &Option<Vec<Join>>
    ensures { option_map (λ joins. joins.items) result.now ≡ certificate.now.most }
{
    &certificate.most
}

/// Appends the name of the type, and its number.
fn push_head(
    text: &mut String,
    table: &Table,
    certificate: &StockCertificate,
) -> Result<(), AllocError>
    ensures { OnOk result (string_bytes text.new
        ≡ string_bytes text.old ++ head_line table.now certificate.now) }
{
    push_pieces(text, &[table.name(), ": consensus number "])?;
    let (at_least, at_most) = bounds_of(certificate);
    push_bounds(text, at_least, at_most)?;
    text.push_str(" (for processes that can read the whole state)\n")
}

/// Appends why the number is no less.
fn push_least(
    alloc: Global,
    text: &mut String,
    table: &Table,
    claim: &StockClaim,
) -> Result<(), AllocError>
    requires { IsKnownClaim table.now claim.now }
    ensures { OnOk result (string_bytes text.new
        ≡ string_bytes text.old ++ least_text table.now claim.now) }
{
    match claim {
        StockClaim::Alone => text.push_str(alone_line()),
        StockClaim::Witness(choice) => push_witness(alloc, text, table, choice),
        StockClaim::Lasting(sets) => push_lasting(text, table, sets),
    }
}

/// Appends the text that tells people why the number of a certificate by stocks is what it is. It
/// has
///
/// - the number, or the bounds of it;
/// - why the number is no less: what the processes of the witness do and can see, or of two
///   operations that last the states of each case;
/// - why it is no more: a line for each join, of the first 12 unless all are asked for.
///
/// Each line ends with a line feed. The certificate has to be right, as `cn_stock_check` tells.
///
/// # Errors
///
/// `AllocError` if memory runs out. The text may then have a part of the explanation.
#[tactic(auto, unfolding(crate::specs::Explanation::stock_explanation))]
pub fn push_stock_explanation(
    alloc: Global,
    text: &mut String,
    table: &Table,
    certificate: &StockCertificate,
    all: bool,
) -> Result<(), AllocError>
    requires { IsRight table.now certificate.now }
    // promise: explanation-by-stocks (stock_explanation)
    ensures { OnOk result (string_bytes text.new
        ≡ string_bytes text.old ++ stock_explanation table.now certificate.now all) }
{
    choice_by_teams();
    let (at_least, at_most) = bounds_of(certificate);
    push_head(text, table, certificate)?;
    text.push_str("\n")?;
    push_least(alloc, text, table, claim_of(certificate))?;
    text.push_str("\n")?;
    push_most(text, table, all, at_least, at_most, joins_of(certificate))
}
