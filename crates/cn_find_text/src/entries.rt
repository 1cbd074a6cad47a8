//! The evidence of a search as the text of a certificate's entries.
ghost use Rattle.std.specs.Prelude.{◌≡◌, string_bytes};

use cn_cert::push_entry;
use cn_choice::Choice;
use cn_search::{Evidence, RecordedOrders};
use std::alloc::{AllocError, Global};

/// The text of entries, each with a comma behind it.
#[derive(Drop)]
pub(crate) struct EntriesText {
    pub text: String,
}

impl Evidence for EntriesText {
    ghost use Rattle.cn_cert.specs.Entries.{listed_text};

    ghost keeps = { λ entries kept. string_bytes entries.text ≡ listed_text kept };

    fn none(alloc: Global) -> EntriesText {
        EntriesText {
            text: String::new(alloc),
        }
    }

    fn add(&mut self, choice: &Choice, orders: RecordedOrders) -> Result<(), AllocError> {
        let (alpha, beta) = (orders.alpha.as_slice(), orders.beta.as_slice());
        push_entry(&mut self.text, choice, orders.process, alpha, beta)?;
        Ok(())
    }

    fn append(&mut self, behind: EntriesText) -> Result<(), AllocError> {
        self.text.push_str(behind.text.as_str())?;
        Ok(())
    }
}
