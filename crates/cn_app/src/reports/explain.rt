//! The report of `explain`.
ghost use Rattle.std.specs.Prelude.{◌≡◌, IfErr, IfOk, string_bytes};
ghost use Rattle.cn_reasons.specs.Explanation.{IsExplanation};
ghost use Rattle.cn_app.specs.Commands.Explain.{explanation_in, ExplainsChecked, IsExplainReport};
ghost use Rattle.cn_io.specs.declared.fault.AppFault.TheVariants.{OutOfMemory};
ghost use Rattle.cn_io.specs.Texts.Checked.{IsChecked};

use cn_check::laws::accepted_is_right;
use cn_form::DocumentForm;
use cn_io::readers::Checked;
use cn_io::{AppFault, Report, with_line_feed};
use cn_json::explanation_json;
use cn_markdown::explanation_markdown;
use cn_reasons::{Explanation, TypeNumber};
use cn_sentences::ShortestCost;
use cn_text::explanation_of;
use std::alloc::{AllocError, Global};

/// What there is to tell of a certificate and its number up to its limit.
pub(crate) fn explanation_for(
    alloc: Global,
    checked: Checked,
    all: bool,
) -> Result<Explanation, AppFault>
    requires { IsChecked checked }
    ensures explained { IfOk result (ExplainsChecked checked all) }
    ensures memory { IfErr result (λ e. e ≡ OutOfMemory) }
{
    let Checked { table, certificate } = checked;
    let number = TypeNumber::UpTo(certificate.limit, certificate.number);
    let explanation = Explanation::new(alloc, table, certificate, number, None, all)?;
    Ok(explanation)
}

/// The text of an explanation in a form, and of how short protocols get, if that is given.
pub(crate) fn text_of(
    alloc: Global,
    explanation: Explanation,
    shortest: Option<ShortestCost>,
    form: DocumentForm,
) -> Result<String, AllocError>
    requires { IsExplanation explanation }
    ensures { IfOk result (λ text. string_bytes text ≡ explanation_in form explanation shortest) }
{
    match form {
        DocumentForm::Text => explanation_of(alloc, &explanation, shortest),
        DocumentForm::Json => with_line_feed(explanation_json(alloc, explanation, shortest)?),
        DocumentForm::Markdown => explanation_markdown(alloc, &explanation, shortest),
    }
}

/// Why the number of a certificate is what it is, up to its limit, in a form: that of
/// [`explanation_of`], of [`explanation_json`] or of [`explanation_markdown`]. Without `all`, it
/// tells the first 12 of the choices that the certificate refutes.
///
/// # Errors
///
/// `OutOfMemory`.
pub fn explain_report(
    alloc: Global,
    checked: Checked,
    all: bool,
    form: DocumentForm,
) -> Result<Report, AppFault>
    requires { IsChecked checked }
    ensures { IsExplainReport checked all form result }
{
    accepted_is_right();
    let explanation = explanation_for(alloc, checked, all)?;
    Ok(Report::whole(text_of(alloc, explanation, None, form)?))
}
