//! Finds the number of the ticket roll, checks what is found, explains the number and draws the
//! roll.
ghost use Rattle.std.specs.Prelude.{◌≡◌, IfOk};
ghost use Rattle.cn_check.specs.Verdict.{IsAccepted};
ghost use Rattle.cn_choice.specs.Discerning.{IsNumberUpTo};

use crate::texts::ticket_roll;
use anyhow::{Result, bail};
use cn_cert::{Certificate, write_certificate};
use cn_check::check;
use cn_reasons::{Explanation, TypeNumber};
use cn_search::find;
use cn_table::{Table, read_table};
use cn_text::{diagram_of, explanation_of};
use std::alloc::Global;
use std::thread::Threads;

// The search is not trusted: what it finds is checked, and only then is it the number of the type.
fn certified<T: Threads + Sync>(
    rt: &T,
    alloc: Global,
    table: &Table,
    limit: u8,
) -> Result<Certificate>
    ensures accepted { IfOk result (IsAccepted table.now) }
    ensures limit { IfOk result (λ c. c.limit ≡ limit) }
    ensures number { IfOk result (λ c. IsNumberUpTo table.now c.limit c.number) }
{
    let finding = find(rt, alloc, table, limit)?;
    let Ok(certificate) = Certificate::of_finding(alloc, table, finding) else {
        bail!("out of memory");
    };
    check(table, &certificate)?;
    Ok(certificate)
}

/// Explains the number of a type to people, and draws the type for Graphviz.
fn explain<R: Print>(rt: &R, alloc: Global, table: Table, certificate: Certificate) -> Result<()>
    requires { IsAccepted table certificate }
{
    let number = TypeNumber::UpTo(certificate.limit, certificate.number);
    let explanation = Explanation::new(alloc, table, certificate, number, None, false)?;
    print!(rt; "{}", explanation_of(alloc, &explanation, None)?)?;
    print!(rt; "{}", diagram_of(alloc, &explanation.table)?)?;
    Ok(())
}

/// Prints the certificate of the number, and why the number is what it is. Answers the certificate's
/// text.
pub(crate) fn find_number<T: Threads + Sync + Print>(rt: &T, alloc: Global) -> Result<String> {
    let table = read_table(alloc, ticket_roll().as_bytes())?;
    let certificate = certified(rt, alloc, &table, 3)?;
    let text = write_certificate(alloc, &certificate)?;
    println!(rt; "{text}")?;
    explain(rt, alloc, table, certificate)?;
    Ok(text)
}
