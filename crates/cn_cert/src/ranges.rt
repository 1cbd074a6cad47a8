//! From a draft to a certificate: ranges of numbers and lists, and the name.
ghost use Rattle.std.specs.Prelude.{◌≡◌, Err, true, false};
ghost use Rattle.cn_cert.specs.Certificate.{is_version};
ghost use Rattle.cn_cert.specs.Ranges.{within, is_byte, is_short, is_choice_in_range};
ghost use Rattle.cn_cert.specs.Ranges.{collision_within, collisions_within, is_witness_in_range, is_number_in_range, is_head_in_range, certificate_within};
ghost use Rattle.cn_cert.specs.Reads.{Converts, Reads};

use crate::certificate::Certificate;
use crate::draft::{Draft, DraftChoice, DraftCollision};
use crate::fault::CertFault;
use arrayvec::ArrayVec;
use cn_choice::{Choice, Collision, MOST_PROCESSES};
use cn_table::{MOST_STATES, State, is_name};
use std::alloc::Global;

const GREATEST_STATE: u64 = MOST_STATES as u64 - 1;

/// The greatest number of an operation, and of a process: both have the same bound.
pub(crate) const GREATEST_NUMBER: u8 = MOST_PROCESSES as u8 - 1;

fn byte(n: u64) -> Result<u8, CertFault>
    ensures { Converts CertFault.Range (λ n. n) result (within is_byte n) }
{
    if n > 255 {
        return Err(CertFault::Range);
    }
    Ok(n as u8)
}

fn number(n: Option<u64>) -> Result<Option<u8>, CertFault>
    ensures { Converts CertFault.Range (λ n. n) result (within is_number_in_range n) }
{
    match n {
        Some(n) => Ok(Some(byte(n)?)),
        None => Ok(None),
    }
}

fn short_list(numbers: &[u64]) -> Result<ArrayVec<u8, MOST_PROCESSES>, CertFault>
    ensures { Converts CertFault.Range (λ v. v.items) result (within is_short numbers.now) }
{
    if numbers.len() > MOST_PROCESSES {
        return Err(CertFault::Range);
    }
    let mut out = ArrayVec::new();
    for n in numbers {
        if *n > GREATEST_NUMBER as u64 {
            return Err(CertFault::Range);
        }
        out.push(*n as u8);
    }
    Ok(out)
}

fn choice(draft: &DraftChoice) -> Result<Choice, CertFault>
    ensures { Converts CertFault.Range (λ c. c) result (within is_choice_in_range draft.now) }
{
    let a = short_list(draft.a.as_slice())?;
    let b = short_list(draft.b.as_slice())?;
    if draft.state > GREATEST_STATE {
        return Err(CertFault::Range);
    }
    Ok(Choice {
        state: State(draft.state as u8),
        a,
        b,
    })
}

fn witness(draft: &Option<DraftChoice>) -> Result<Option<Choice>, CertFault>
    ensures { Converts CertFault.Range (λ o. o) result (within is_witness_in_range draft.now) }
{
    match draft {
        Some(draft) => Ok(Some(choice(draft)?)),
        None => Ok(None),
    }
}

#[tactic(auto, unfolding(crate::specs::Ranges::collision_within))]
fn collision(draft: &DraftCollision) -> Result<Collision, CertFault>
    ensures { Converts CertFault.Range (λ c. c) result (collision_within draft.now) }
{
    let choice = choice(&draft.choice)?;
    let alpha = short_list(draft.alpha.as_slice())?;
    let beta = short_list(draft.beta.as_slice())?;
    if draft.process > GREATEST_NUMBER as u64 {
        return Err(CertFault::Range);
    }
    Ok(Collision {
        choice,
        process: draft.process as u8,
        alpha,
        beta,
    })
}

fn collisions(alloc: Global, drafts: &[DraftCollision]) -> Result<Vec<Collision>, CertFault>
    ensures { Reads CertFault.Range (λ v. v.items) result (collisions_within drafts.now) }
{
    let mut out = Vec::new(alloc);
    for draft in drafts {
        out.push(collision(draft)?)?;
    }
    Ok(out)
}

/// The certificate of a draft, if everything is within its range. The function takes memory only
/// for the collisions, after it has looked at everything else.
#[tactic(auto, using(crate::proofs::RangeLemmas::each_within))]
pub(crate) fn certificate(alloc: Global, draft: Draft) -> Result<Certificate, CertFault>
    requires { is_version draft.version ≡ true }
    ensures read { Reads CertFault.Range (λ c. c) result (certificate_within draft) }
    ensures told { is_head_in_range draft ≡ false → result ≡ Err CertFault.Range }
{
    let limit = byte(draft.limit)?;
    let number = number(draft.number)?;
    let witness = witness(&draft.witness)?;
    if !is_name(draft.type_name.as_str()) {
        return Err(CertFault::Range);
    }
    let collisions = collisions(alloc, &draft.collisions)?;
    let Draft {
        version,
        type_name,
        limit: _,
        number: _,
        witness: _,
        collisions: _,
    } = draft;
    Ok(Certificate {
        version: version as u8,
        type_name,
        limit,
        number,
        witness,
        collisions,
    })
}
