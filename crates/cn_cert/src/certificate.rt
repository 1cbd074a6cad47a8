//! Certificates as values.
ghost use Rattle.std.specs.Prelude.{◌≡◌, IfErr, IfOk};
ghost use Rattle.cn_cert.specs.Certificate.{certificate_of};

use cn_choice::{Choice, Collision};
use cn_finding::Finding;
use cn_table::Table;
use std::alloc::Global;
use std::marker::Model;

const NEWEST_VERSION: u8 = 2;

/// A certificate of a type: its number up to a limit, and the evidence for that number.
///
/// Nothing here is checked: a certificate that was read from a text can say anything.
#[derive(Drop)]
pub struct Certificate {
    /// The version of the format, which is 1 or 2.
    pub version: u8,
    /// The name of the type.
    pub type_name: String,
    /// The limit of the search.
    pub limit: u8,
    /// The greatest n from 2 to the limit for which the type is n-discerning, if there is one.
    pub number: Option<u8>,
    /// A witness for that number.
    pub witness: Option<Choice>,
    /// A collision of each choice for one process more than the number, in the order of the
    /// choices: of the canonical ones in version 1, of the live ones among them in version 2.
    /// Without a number the choices are for two processes. The list is empty if the number is the
    /// limit.
    pub collisions: Vec<Collision>,
}

impl Model for Certificate {
    ghost use Rattle.std.specs.Prelude.{string_bytes};
    ghost use Rattle.cn_cert.specs.Certificate.{Certificate};

    ghost Value = { Certificate };

    ghost view = { λ c. record {
      version = c.version;
      type_name = string_bytes c.type_name;
      limit = c.limit;
      number = c.number;
      witness = c.witness;
      collisions = c.collisions.items;
    } };
}

impl Certificate {
    /// The certificate of a finding for this table, in version 2.
    ///
    /// # Errors
    ///
    /// The finding comes back if memory runs out, and only then.
    pub fn of_finding(
        alloc: Global,
        table: &Table,
        finding: Finding,
    ) -> Result<Certificate, Finding>
        // promise: certificate-of-a-finding
        ensures certificate { IfOk result (λ c. c ≡ certificate_of table.now.name finding) }
        // promise: certificate-of-a-finding
        ensures handed_back { IfErr result (λ f. f ≡ finding) }
    {
        let type_name = match String::from_str(alloc, table.name()) {
            Ok(type_name) => type_name,
            Err(_) => return Err(finding),
        };
        let Finding {
            limit,
            number,
            witness,
            collisions,
        } = finding;
        Ok(Certificate {
            version: NEWEST_VERSION,
            type_name,
            limit,
            number,
            witness,
            collisions,
        })
    }
}
