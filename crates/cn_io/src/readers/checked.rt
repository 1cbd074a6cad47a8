//! A table and a certificate that the check accepts for it.
ghost use Rattle.cn_io.specs.Texts.Checked.{GivesCheck, GivesChecked, HaveReadBoth, IsChecked};
ghost use Rattle.cn_io.specs.Texts.Plans.{GivesPlan};
ghost use Rattle.cn_io.specs.Streams.Reading.{IsUnread};

use crate::fault::AppFault;
use crate::readers::table::{read_certificate, read_table};
use crate::streams::text::Text;
use cn_cert::Certificate;
use cn_proto::{Plan, PlanFault};
use cn_table::Table;
use std::alloc::Global;
use std::io::Read;

/// A table, and a certificate that the check accepts for it.
#[derive(Drop)]
pub struct Checked {
    /// The table of the type.
    pub table: Table,
    /// The certificate of the type.
    pub certificate: Certificate,
}

impl Checked {
    /// Checks the certificate against the table ([`check`](cn_check::check)), and keeps both.
    ///
    /// # Errors
    ///
    /// `Check` with the first fault of the certificate for this table.
    pub fn new(table: Table, certificate: Certificate) -> Result<Checked, AppFault>
        ensures { GivesCheck table certificate result }
    {
        cn_check::check(&table, &certificate)?;
        Ok(Checked { table, certificate })
    }

    /// The plan of the certificate's witness.
    ///
    /// # Errors
    ///
    /// `NoWitness` if the certificate has none, or `OutOfMemory`.
    pub fn plan(&self, alloc: Global) -> Result<Plan, AppFault>
        requires { IsChecked self.now }
        ensures { GivesPlan self.now result }
    {
        let Some(witness) = &self.certificate.witness else {
            return Err(AppFault::NoWitness);
        };
        match Plan::from_witness(alloc, &self.table, witness) {
            Ok(plan) => Ok(plan),
            Err(PlanFault::OutOfMemory) => Err(AppFault::OutOfMemory),
            // The witness of an accepted certificate has no outcome sets that meet.
            Err(PlanFault::Meets(_)) => unreachable!(),
        }
    }
}

/// Reads a table, then a certificate, and checks the certificate against the table.
///
/// # Errors
///
/// The first of these: those of [`read_table`], those of [`read_certificate`], those of
/// [`Checked::new`]. If the table is refused, the certificate is not touched.
pub fn read_checked<R: Read, C: Read>(
    alloc: Global,
    table: &mut Text<R>,
    certificate: &mut Text<C>,
) -> Result<Checked, AppFault>
    requires texts { IsUnread table.old × IsUnread certificate.old }
    // promise: parts-of-commands
    ensures read { HaveReadBoth R.remaining C.remaining table.old table.new
        certificate.old certificate.new }
    // promise: parts-of-commands
    ensures checked { GivesChecked table.new certificate.new result }
{
    let table = read_table(alloc, table)?;
    let certificate = read_certificate(alloc, certificate)?;
    Checked::new(table, certificate)
}
