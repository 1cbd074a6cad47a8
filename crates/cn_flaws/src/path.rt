//! The path from the root of a document to the place of a flaw.
ghost use Rattle.std.specs.Prelude.{◌≡◌, ◌∷◌, ◌++◌, [], IfOk, OnOk, string_bytes};
ghost use Rattle.cn_flaws.specs.FlawPath.{Index, Key, item_path, key_path, list_path, name_path, path_view, table_path};

use std::alloc::{AllocError, Global};

/// A part of the path that leads from the root of a document to a place in it.
#[derive(Drop)]
pub enum PathPart {
    /// A key of a table.
    Key(String),
    /// The index of an item of an array, from 0.
    Index(usize),
}

/// A table of a document that holds keys.
#[derive(Clone, Copy)]
pub(crate) enum Holder {
    Root,
    /// The table of the operation with this index.
    Operation(usize),
}

/// The names of a draft that stand in one list.
#[derive(Clone, Copy)]
pub(crate) enum NameList {
    States,
    Responses,
    Operations,
}

impl NameList {
    ghost use Rattle.cn_flaws.specs.Flaws.{list_word};

    /// The word for a name of the list.
    pub(crate) fn word(self) -> &'static str
        ensures { result.now ≡ list_word self }
    {
        match self {
            NameList::States => "state",
            NameList::Responses => "response",
            NameList::Operations => "operation",
        }
    }
}

fn push_key(path: &mut Vec<PathPart>, key: String) -> Result<(), AllocError>
    ensures { OnOk result (path_view path.new
        ≡ path_view path.old ++ Key (string_bytes key) ∷ []) }
{
    path.push(PathPart::Key(key))?;
    Ok(())
}

fn push_index(path: &mut Vec<PathPart>, i: usize) -> Result<(), AllocError>
    ensures { OnOk result (path_view path.new ≡ path_view path.old ++ Index i ∷ []) }
{
    path.push(PathPart::Index(i))?;
    Ok(())
}

fn path_to_operation(alloc: Global, i: usize) -> Result<Vec<PathPart>, AllocError>
    ensures { IfOk result (λ path. path_view path ≡ table_path (Holder.Operation i)) }
{
    let mut path = Vec::new(alloc);
    let key = String::from_str(alloc, "operation")?;
    push_key(&mut path, key)?;
    push_index(&mut path, i)?;
    Ok(path)
}

/// The path to a table.
pub(crate) fn path_to_table(alloc: Global, holder: Holder) -> Result<Vec<PathPart>, AllocError>
    ensures { IfOk result (λ path. path_view path ≡ table_path holder) }
{
    match holder {
        Holder::Root => Ok(Vec::new(alloc)),
        Holder::Operation(i) => path_to_operation(alloc, i),
    }
}

/// The path to a key of a table, and to the value there.
pub(crate) fn path_to_key(
    alloc: Global,
    holder: Holder,
    key: &str,
) -> Result<Vec<PathPart>, AllocError>
    ensures { IfOk result (λ path. path_view path ≡ key_path holder key.now) }
{
    let mut path = path_to_table(alloc, holder)?;
    let key = String::from_str(alloc, key)?;
    push_key(&mut path, key)?;
    Ok(path)
}

/// The path to an item of the array at a key of a table.
pub(crate) fn path_to_item(
    alloc: Global,
    holder: Holder,
    key: &str,
    k: usize,
) -> Result<Vec<PathPart>, AllocError>
    ensures { IfOk result (λ path. path_view path ≡ item_path holder key.now k) }
{
    let mut path = path_to_key(alloc, holder, key)?;
    push_index(&mut path, k)?;
    Ok(path)
}

/// The path to the array that has the names of a list.
pub(crate) fn path_to_list(alloc: Global, list: NameList) -> Result<Vec<PathPart>, AllocError>
    ensures { IfOk result (λ path. path_view path ≡ list_path list) }
{
    match list {
        NameList::States => path_to_key(alloc, Holder::Root, "states"),
        NameList::Responses => path_to_key(alloc, Holder::Root, "responses"),
        NameList::Operations => path_to_key(alloc, Holder::Root, "operation"),
    }
}

/// The path to the name in a list with this index.
pub(crate) fn path_to_name(
    alloc: Global,
    list: NameList,
    i: usize,
) -> Result<Vec<PathPart>, AllocError>
    ensures { IfOk result (λ path. path_view path ≡ name_path list i) }
{
    match list {
        NameList::States => path_to_item(alloc, Holder::Root, "states", i),
        NameList::Responses => path_to_item(alloc, Holder::Root, "responses", i),
        NameList::Operations => path_to_key(alloc, Holder::Operation(i), "name"),
    }
}
