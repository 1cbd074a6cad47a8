//! The object of a certificate, member by member.
ghost use Rattle.std.specs.Prelude.{◌≡◌, ◌==◌, IfOk, IfErr, Some, None, option_map, string_bytes};
ghost use Rattle.serde_json.specs.Data.{no_members, object};
ghost use Rattle.serde_json.specs.Find.{as_str};
ghost use Rattle.serde_json.specs.View.{members_view};
ghost use Rattle.cn_cert.specs.Document.{members_len};
ghost use Rattle.cn_cert.specs.Draft.{draft_of};
ghost use Rattle.cn_cert.specs.Reads.{Refuses};
ghost use Rattle.cn_cert.specs.Tokens.{data_at, members_at, with_value, nothing, slots_of, with_member, draft_parts};

use crate::array::list;
use crate::draft::{Draft, DraftChoice, DraftCollision};
use crate::fault::CertFault;
use crate::kind::{next, next_or_null};
use crate::skip::{first, key, rest_of};
use json::{Reader, Token};
use serde_json::{Map, Value};
use std::alloc::Global;
use std::marker::Model;

/// The values at the six keys, each if it is of its kind.
#[derive(Drop)]
struct MemberSlots {
    collisions: Option<Vec<DraftCollision>>,
    limit: Option<u64>,
    number: Option<Option<u64>>,
    type_name: Option<String>,
    version: Option<u64>,
    witness: Option<Option<DraftChoice>>,
}

impl Model for MemberSlots {
    ghost use Rattle.std.specs.Prelude.{option_map, string_bytes};
    ghost use Rattle.cn_cert.specs.Tokens.{MemberSlots};

    ghost Value = { MemberSlots };

    ghost view = { λ s. record {
      collisions = option_map (λ v. v.items) s.collisions;
      limit = s.limit;
      number = s.number;
      type_name = option_map string_bytes s.type_name;
      version = s.version;
      witness = s.witness;
    } };
}

fn no_slots() -> MemberSlots
    ensures { result ≡ slots_of no_members }
{
    MemberSlots {
        collisions: None,
        limit: None,
        number: None,
        type_name: None,
        version: None,
        witness: None,
    }
}

fn draft_of_slots(slots: MemberSlots) -> Option<Draft>
    ensures { result ≡ draft_parts slots }
{
    let MemberSlots {
        collisions,
        limit,
        number,
        type_name,
        version,
        witness,
    } = slots;
    Some(Draft {
        collisions: collisions?,
        limit: limit?,
        number: number?,
        type_name: type_name?,
        version: version?,
        witness: witness?,
    })
}

/// Reads a text; none if the next value is anything else.
fn text(alloc: Global, reader: &mut Reader<'_>, depth: usize) -> Result<Option<String>, CertFault>
    ensures ok { IfOk result (λ o. with_value as_str (data_at depth reader.old)
        ≡ Some (option_map string_bytes o, reader.new)) }
    ensures err { IfErr result (λ e. Refuses e (with_value as_str (data_at depth reader.old))) }
{
    let token = first(reader)?;
    if let Token::String(text) = token {
        return Ok(Some(String::from_str(alloc, text)?));
    }
    rest_of(reader, depth, token)?;
    Ok(None)
}

/// Reads the value at this key.
fn read_member(
    alloc: Global,
    reader: &mut Reader<'_>,
    depth: usize,
    key: &str,
    slots: &mut MemberSlots,
) -> Result<(), CertFault>
    ensures ok { IfOk result (λ _. with_value (with_member key.now slots.old)
        (data_at depth reader.old) ≡ Some (slots.new, reader.new)) }
    ensures err { IfErr result (λ e. Refuses e (with_value nothing (data_at depth reader.old))) }
{
    if key == "collisions" {
        slots.collisions = list::<DraftCollision>(alloc, reader, depth)?;
    } else if key == "limit" {
        slots.limit = next::<u64>(alloc, reader, depth)?;
    } else if key == "number" {
        slots.number = next_or_null::<u64>(alloc, reader, depth)?;
    } else if key == "type" {
        slots.type_name = text(alloc, reader, depth)?;
    } else if key == "version" {
        slots.version = next::<u64>(alloc, reader, depth)?;
    } else if key == "witness" {
        slots.witness = next_or_null::<DraftChoice>(alloc, reader, depth)?;
    } else {
        let token = first(reader)?;
        rest_of(reader, depth, token)?;
    }
    Ok(())
}

/// Whether an object has exactly this number of keys.
fn has_len(map: &Map<String, Value>, len: usize) -> bool
    ensures { result ≡ (members_len (members_view map.now.entries) == len) }
{
    map.len() == len
}

/// Reads the rest of an object as a certificate. Of two equal keys the last one counts.
fn draft_members(
    alloc: Global,
    reader: &mut Reader<'_>,
    depth: usize,
) -> Result<Option<Draft>, CertFault>
    ensures ok { IfOk result (λ o. with_value (λ ms. draft_of (object ms))
        (members_at depth no_members reader.old) ≡ Some (o, reader.new)) }
    ensures err { IfErr result (λ e. Refuses e
        (with_value (λ ms. draft_of (object ms)) (members_at depth no_members reader.old))) }
{
    let mut slots = no_slots();
    let mut keys: Map<String, Value> = Map::new(alloc);
    'members: while let Some(name) = key(reader)? {
        let copied = String::from_str(alloc, name)?;
        read_member(alloc, reader, depth, name, &mut slots)?;
        drop(keys.insert(copied, Value::Null)?);
    }
    if has_len(&keys, 6) {
        Ok(draft_of_slots(slots))
    } else {
        Ok(None)
    }
}

/// Reads the next value as a certificate; none if it has another shape.
pub(crate) fn draft(
    alloc: Global,
    reader: &mut Reader<'_>,
    depth: usize,
) -> Result<Option<Draft>, CertFault>
    ensures ok { IfOk result (λ o. with_value draft_of (data_at depth reader.old)
        ≡ Some (o, reader.new)) }
    ensures err { IfErr result (λ e. Refuses e (with_value draft_of (data_at depth reader.old))) }
{
    let token = first(reader)?;
    if let Token::BeginObject = token {
        if depth == 0 {
            return Err(CertFault::NotJson);
        }
        return draft_members(alloc, reader, depth - 1);
    }
    rest_of(reader, depth, token)?;
    Ok(None)
}
