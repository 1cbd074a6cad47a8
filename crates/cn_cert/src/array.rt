//! Arrays, item by item.
ghost use Rattle.std.specs.Prelude.{◌≡◌, ◌∷◌, true, IfOk, IfErr, Some, None, option_map};
ghost use Rattle.std.specs.Bool.{MatchBool};
ghost use Rattle.json.specs.Reads.{token_of};
ghost use Rattle.cn_cert.specs.Reads.{Refuses};
ghost use Rattle.cn_cert.specs.Tokens.{IsLast, IsNext, OpensArray, TakesThing, data_at, items_at, rest_at, with_value};
ghost use Rattle.cn_cert.specs.Tokens.{next_item, choice_parts, collision_parts, is_over, all_items, in_array, sole_thing};
ghost use Rattle.cn_cert.specs.Values.{natural_of, naturals_of, each_of};

use crate::draft::{DraftChoice, DraftCollision};
use crate::fault::CertFault;
use crate::kind::{Kind, next};
use crate::skip::{first, rest_of, rest_of_items};
use json::{Reader, Token};
use std::alloc::Global;

/// Opens the array that begins with this token, or passes over the rest of another value.
#[inline(always)]
fn opens(reader: &mut Reader<'_>, depth: usize, token: Token<'_>) -> Result<bool, CertFault>
    ensures ok { IfOk result (λ opened. OpensArray opened depth (token_of token.entry ∷ reader.old)
        reader.new) }
    ensures err { IfErr result (λ e. Refuses e
        (data_at depth (token_of token.entry ∷ reader.old))) }
{
    if let Token::BeginArray = token {
        if depth == 0 {
            return Err(CertFault::NotJson);
        }
        return Ok(true);
    }
    rest_of(reader, depth, token)?;
    Ok(false)
}

/// Reads the items of an array that was opened; none if one of them is of another kind.
fn items<T: Kind>(
    alloc: Global,
    reader: &mut Reader<'_>,
    depth: usize,
) -> Result<Option<Vec<T>>, CertFault>
    ensures ok { IfOk result (λ o. with_value (all_items T.kind) (items_at depth reader.old)
        ≡ Some (option_map (λ v. v.items) o, reader.new)) }
    ensures err { IfErr result (λ e. Refuses e
        (with_value (all_items T.kind) (items_at depth reader.old))) }
{
    let mut values = Vec::new(alloc);
    'items: while !reader.take_end_array() {
        match next::<T>(alloc, reader, depth)? {
            Some(item) => values.push(item)?,
            None => {
                rest_of_items(reader, depth)?;
                return Ok(None);
            }
        }
    }
    Ok(Some(values))
}

/// Reads an array of values of a kind; none if the next value is anything else.
pub(crate) fn list<T: Kind>(
    alloc: Global,
    reader: &mut Reader<'_>,
    depth: usize,
) -> Result<Option<Vec<T>>, CertFault>
    ensures ok { IfOk result (λ o. with_value (each_of T.kind) (data_at depth reader.old)
        ≡ Some (option_map (λ v. v.items) o, reader.new)) }
    ensures err { IfErr result (λ e. Refuses e
        (with_value (each_of T.kind) (data_at depth reader.old))) }
{
    let token = first(reader)?;
    if opens(reader, depth, token)? {
        items::<T>(alloc, reader, depth - 1)
    } else {
        Ok(None)
    }
}

/// Whether the array has another item. At its end `more` becomes false.
#[inline(always)]
fn has_next(reader: &mut Reader<'_>, more: &mut bool) -> bool
    ensures value { result ≡ more.new }
    ensures more { MatchBool result (IsNext more.old reader.old reader.new)
        (IsLast more.old reader.old reader.new) }
{
    if *more && reader.take_end_array() {
        *more = false;
    }
    *more
}

#[inline(always)]
fn next_natural(
    alloc: Global,
    reader: &mut Reader<'_>,
    depth: usize,
    more: &mut bool,
) -> Result<Option<u64>, CertFault>
    ensures ok { IfOk result (λ o. TakesThing (next_item natural_of) depth o more.old reader.old
        more.new reader.new) }
    ensures err { IfErr result (λ e. Refuses e
        (with_value (next_item natural_of) (rest_at more.old depth reader.old))) }
{
    if has_next(reader, more) {
        next::<u64>(alloc, reader, depth)
    } else {
        Ok(None)
    }
}

fn next_naturals(
    alloc: Global,
    reader: &mut Reader<'_>,
    depth: usize,
    more: &mut bool,
) -> Result<Option<Vec<u64>>, CertFault>
    ensures ok { IfOk result (λ o. TakesThing (next_item naturals_of) depth
        (option_map (λ v. v.items) o) more.old reader.old more.new reader.new) }
    ensures err { IfErr result (λ e. Refuses e
        (with_value (next_item naturals_of) (rest_at more.old depth reader.old))) }
{
    if has_next(reader, more) {
        list::<u64>(alloc, reader, depth)
    } else {
        Ok(None)
    }
}

/// Goes to the end of the array, and says whether no item was left.
fn is_over(reader: &mut Reader<'_>, depth: usize, more: &mut bool) -> Result<bool, CertFault>
    ensures ok { IfOk result (λ over. with_value is_over (rest_at more.old depth reader.old)
        ≡ Some (over, reader.new)) }
    ensures err { IfErr result (λ e. Refuses e
        (with_value is_over (rest_at more.old depth reader.old))) }
{
    if has_next(reader, more) {
        rest_of_items(reader, depth)?;
        Ok(false)
    } else {
        Ok(true)
    }
}

/// A thing that a fixed number of items spells: a choice three, a collision six.
trait Parts: Sized + Drop {
    ghost use Rattle.std.specs.Prelude.{◌≡◌, Option, IfOk, IfErr};
    ghost use Rattle.serde_json.specs.Data.{Items};
    ghost use Rattle.cn_cert.specs.Reads.{Refuses};
    ghost use Rattle.cn_cert.specs.Tokens.{TakesThing, rest_at, with_value};

    ghost parts: { Items → Option Self × Items };

    /// Reads the next items as one such thing.
    fn next(
        alloc: Global,
        reader: &mut Reader<'_>,
        depth: usize,
        more: &mut bool,
    ) -> Result<Option<Self>, CertFault>
        ensures ok { IfOk result (λ o. TakesThing parts depth o more.old reader.old more.new
            reader.new) }
        ensures err { IfErr result (λ e. Refuses e
            (with_value parts (rest_at more.old depth reader.old))) };
}

/// Reads the rest of an array as one such thing; none if an item is left behind it.
fn rest_as<T: Parts>(
    alloc: Global,
    reader: &mut Reader<'_>,
    depth: usize,
) -> Result<Option<T>, CertFault>
    ensures ok { IfOk result (λ o. with_value (sole_thing T.parts) (items_at depth reader.old)
        ≡ Some (o, reader.new)) }
    ensures err { IfErr result (λ e. Refuses e
        (with_value (sole_thing T.parts) (items_at depth reader.old))) }
{
    let mut more = true;
    let value = T::next(alloc, reader, depth, &mut more)?;
    if is_over(reader, depth, &mut more)? {
        Ok(value)
    } else {
        Ok(None)
    }
}

/// Reads the array that begins with this token, which was taken, as one such thing.
fn array_as<T: Parts>(
    alloc: Global,
    reader: &mut Reader<'_>,
    depth: usize,
    token: Token<'_>,
) -> Result<Option<T>, CertFault>
    ensures ok { IfOk result (λ o. with_value (in_array (sole_thing T.parts))
        (data_at depth (token_of token.entry ∷ reader.old)) ≡ Some (o, reader.new)) }
    ensures err { IfErr result (λ e. Refuses e
        (with_value (in_array (sole_thing T.parts))
        (data_at depth (token_of token.entry ∷ reader.old)))) }
{
    if opens(reader, depth, token)? {
        rest_as::<T>(alloc, reader, depth - 1)
    } else {
        Ok(None)
    }
}

fn choice_of_parts(
    state: Option<u64>,
    a: Option<Vec<u64>>,
    b: Option<Vec<u64>>,
) -> Option<DraftChoice>
    ensures { result
        ≡ choice_parts state (option_map (λ v. v.items) a) (option_map (λ v. v.items) b) }
{
    Some(DraftChoice {
        state: state?,
        a: a?,
        b: b?,
    })
}

impl Parts for DraftChoice {
    ghost use Rattle.cn_cert.specs.Tokens.{next_choice};

    ghost parts = { next_choice };

    fn next(
        alloc: Global,
        reader: &mut Reader<'_>,
        depth: usize,
        more: &mut bool,
    ) -> Result<Option<DraftChoice>, CertFault> {
        let state = next_natural(alloc, reader, depth, more)?;
        let a = next_naturals(alloc, reader, depth, more)?;
        let b = next_naturals(alloc, reader, depth, more)?;
        Ok(choice_of_parts(state, a, b))
    }
}

impl Kind for DraftChoice {
    ghost use Rattle.cn_cert.specs.Draft.{choice_of};

    ghost kind = { choice_of };

    fn of(
        alloc: Global,
        reader: &mut Reader<'_>,
        depth: usize,
        token: Token<'_>,
    ) -> Result<Option<DraftChoice>, CertFault> {
        array_as(alloc, reader, depth, token)
    }
}

fn collision_of_parts(
    choice: Option<DraftChoice>,
    orders: Option<DraftChoice>,
) -> Option<DraftCollision>
    ensures { result ≡ collision_parts choice orders }
{
    let choice = choice?;
    let DraftChoice { state, a, b } = orders?;
    Some(DraftCollision {
        choice,
        process: state,
        alpha: a,
        beta: b,
    })
}

impl Parts for DraftCollision {
    ghost use Rattle.cn_cert.specs.Tokens.{next_collision};

    ghost parts = { next_collision };

    fn next(
        alloc: Global,
        reader: &mut Reader<'_>,
        depth: usize,
        more: &mut bool,
    ) -> Result<Option<DraftCollision>, CertFault> {
        let choice = DraftChoice::next(alloc, reader, depth, more)?;
        let orders = DraftChoice::next(alloc, reader, depth, more)?;
        Ok(collision_of_parts(choice, orders))
    }
}

impl Kind for DraftCollision {
    ghost use Rattle.cn_cert.specs.Draft.{collision_of};

    ghost kind = { collision_of };

    fn of(
        alloc: Global,
        reader: &mut Reader<'_>,
        depth: usize,
        token: Token<'_>,
    ) -> Result<Option<DraftCollision>, CertFault> {
        array_as(alloc, reader, depth, token)
    }
}
