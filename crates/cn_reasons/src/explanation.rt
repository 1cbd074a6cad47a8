//! What there is to tell of a number, as one value.
ghost use Rattle.std.specs.Prelude.{IfOk, IfSome};
ghost use Rattle.cn_check.specs.Verdict.{IsAccepted};
ghost use Rattle.cn_stocks.specs.Leaving.{IsLasting};
ghost use Rattle.cn_reasons.specs.Explanation.{Explains};

use crate::lasting::{LastingWitness, lasting_if};
use crate::numbers::TypeNumber;
use crate::refutation::{Refutation, refutation_of};
use crate::way::Way;
use crate::witness::{Witness, witness_if};
use cn_cert::Certificate;
use cn_interference::{OperationPair, Rule, pairs_apart, rule_of};
use cn_stocks::lasting::Lasting;
use cn_table::Table;
use std::alloc::{AllocError, Global};

/// Why the number of a type is what it is. Each form of an explanation is a function of this value.
#[derive(Drop)]
pub struct Explanation {
    /// The table of the type.
    pub table: Table,
    /// The number that is explained.
    pub number: TypeNumber,
    /// The limit up to which the certificate is.
    pub limit: u8,
    /// The version of the certificate.
    pub version: u8,
    /// Why the number is no less: the witness, if the number of the certificate is not 1.
    pub witness: Option<Witness>,
    /// Why the number is no more: what the certificate refutes, if its number is below its limit.
    pub refutation: Option<Refutation<Way>>,
    /// Two operations that last, if some do and are told.
    pub lasting: Option<LastingWitness>,
    /// The rule by which the operations alone bound the number, if one applies.
    pub rule: Option<Rule>,
    /// The pairs of operations that do not interfere in some state.
    pub apart: Vec<OperationPair>,
    /// Whether every way that the certificate refutes is told.
    pub all: bool,
}

impl Explanation {
    /// The explanation of this number, with this evidence.
    ///
    /// [`check`](cn_check::check) accepts the certificate for the table. The number is the one up
    /// to the limit of the certificate, or the one with no limit. It tells all ways that the
    /// certificate refutes, or the first [`MOST_TOLD`](cn_form::MOST_TOLD).
    ///
    /// # Errors
    ///
    /// `AllocError` if memory runs out.
    pub fn new(
        alloc: Global,
        table: Table,
        certificate: Certificate,
        number: TypeNumber,
        lasting: Option<Lasting>,
        all: bool,
    ) -> Result<Explanation, AllocError>
        requires accepted { IsAccepted table certificate }
        requires lasting { IfSome lasting (IsLasting table) }
        // promise: explanation (Explains, IsExplanation)
        ensures { IfOk result (Explains table certificate number lasting all) }
    {
        let witness = witness_if(alloc, &table, &certificate.witness)?;
        let refutation = refutation_of(alloc, &table, &certificate, all)?;
        let lasting = lasting_if(alloc, &table, lasting)?;
        let rule = rule_of(&table);
        let apart = pairs_apart(alloc, &table)?;
        Ok(Explanation {
            table,
            number,
            limit: certificate.limit,
            version: certificate.version,
            witness,
            refutation,
            lasting,
            rule,
            apart,
            all,
        })
    }
}
