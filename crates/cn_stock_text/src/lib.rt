//! Explanations of certificates by stocks, for people.
//!
//! [`push_stock_explanation`] tells why the number of a right certificate is what it is: by the
//! witness or by operations that last, and by its [joins](cn_joins), a line each. The text is a
//! function of the table and of the certificate.
//!
//! ```text
//! check_stocks(alloc, &table, &certificate)?;
//! push_stock_explanation(alloc, &mut text, &table, &certificate, false)?;
//! ```
#![tactic(auto)]

mod explanation;
mod joins;
mod lasting;
mod limits;
mod most;
mod names;
#[cfg(test)]
mod tests;
mod witness;

pub use explanation::push_stock_explanation;
