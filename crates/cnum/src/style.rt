//! How a plan is written, by the words.
ghost use Rattle.cnum.specs.Styles.{GivesStyle};

use cn_app::{AppFault, PlanStyle, read_prefix};
use cn_words::StyleWords;
use std::alloc::Global;

/// How a plan is written, by these words.
pub fn style_of(alloc: Global, words: StyleWords<'_>) -> Result<PlanStyle, AppFault>
    // promise: prefix-of-an-argument (GivesStyle: plain_style, GivesPrefix)
    ensures { GivesStyle words.entry result }
{
    match words {
        StyleWords::Plain(form) => Ok(PlanStyle::of_form(form)),
        StyleWords::ExternalC(word) => Ok(PlanStyle::ExternalC(read_prefix(alloc, word)?)),
        StyleWords::Header(word) => Ok(PlanStyle::Header(read_prefix(alloc, word)?)),
    }
}
