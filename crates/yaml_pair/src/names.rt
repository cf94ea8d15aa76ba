//! Names of items.
ghost use Rattle.std.specs.Prelude.{◌≡◌, ◌<◌, length, map, IfOk, OnOk};
ghost use Rattle.std.specs.Option.{option_map};
ghost use Rattle.yaml_store_rank.specs.Forests.{count, tree};
ghost use Rattle.yaml_pair.specs.Names.{before_slash, found_at, scalar_at, group_of, namings};
ghost use Rattle.yaml_pair.specs.Named.{IsFound, IsScalarRank, IsObjectName, IsName, AreNames, naming_of, texts_of, Within, HasPairs, EqualPairs, PairsBy};

use crate::asked::{Asked, TABLE};
use crate::nodes::{scalar_rank_at, text_at, value_at};
use crate::partners::{Name, Partners, is_free, join};
use std::alloc::{AllocError, Global};
use yaml_store_rank::RankedForests;
use yaml_tree::node::NodeId;

/// Where a name is looked for.
#[derive(Clone, Copy)]
pub(crate) enum Column<'a> {
    /// `apiVersion` without its version, `kind`, `metadata.namespace` and `metadata.name`.
    Object,
    /// A value below, by the keys that lead to it, parted by `.`.
    Path(&'a str),
}

/// Where names are looked for, in this order: documents have no names of the table.
pub(crate) fn columns<'a>(
    alloc: Global,
    asked: Asked<'a>,
    documents: bool,
) -> Result<Vec<Column<'a>>, AllocError>
    ensures ok { IfOk result (λ columns. map naming_of columns.items ≡ namings (texts_of asked.entry.by.now) documents) }
{
    let mut columns = Vec::new(alloc);
    for path in asked.by {
        columns.push(Column::Path(path))?;
    }
    columns.push(Column::Object)?;
    if !documents {
        for key in &TABLE {
            columns.push(Column::Path(key))?;
        }
    }
    Ok(columns)
}

/// The group of an `apiVersion`: what stands before `/`.
fn before_slash(version: &str) -> &str
    ensures { result.now ≡ before_slash version.now }
{
    match version.split_once('/') {
        Some((group, _)) => group,
        None => "",
    }
}

/// The node to which keys parted by `.` lead from an item.
fn found_at(forests: &RankedForests<'_>, item: NodeId, path: &str) -> Option<NodeId>
    ensures { item.0 < count forests.now → IsFound forests.now (found_at (tree forests.now item.0) path.now) result }
{
    let mut node = item;
    for key in path.split('.') {
        node = value_at(forests, node, key)?;
    }
    Some(node)
}

/// The scalar to which keys parted by `.` lead from an item, by its rank.
fn scalar_at(forests: &RankedForests<'_>, item: NodeId, path: &str) -> Option<usize>
    ensures { item.0 < count forests.now → IsScalarRank forests.now (scalar_at (tree forests.now item.0) path.now) result }
{
    scalar_rank_at(forests, found_at(forests, item, path)?)
}

/// The group of an object.
fn group_of<'g>(forests: &'g RankedForests<'_>, item: NodeId) -> Option<&'g str>
    ensures { item.0 < count forests.now → option_map (λ group. group.now) result ≡ group_of (tree forests.now item.0) }
{
    let version = text_at(forests, found_at(forests, item, "apiVersion")?)?;
    Some(before_slash(version))
}

/// The name of an object with a kind: its group, its kind, its namespace and its own name.
fn object_name<'g>(forests: &'g RankedForests<'_>, item: NodeId) -> Option<Name<'g>>
    ensures { item.0 < count forests.now → IsObjectName forests.now (tree forests.now item.0) result }
{
    let group = group_of(forests, item)?;
    let kind = scalar_at(forests, item, "kind")?;
    let name = scalar_at(forests, item, "metadata.name")?;
    let space = scalar_at(forests, item, "metadata.namespace");
    Some((group, kind, space, name))
}

/// The name that an item has there.
fn name_in<'g>(forests: &'g RankedForests<'_>, item: NodeId, column: Column<'_>) -> Option<Name<'g>>
    ensures { item.0 < count forests.now → IsName forests.now (naming_of column.entry) (tree forests.now item.0) result }
{
    match column {
        Column::Object => object_name(forests, item),
        Column::Path(path) => {
            let rank = scalar_at(forests, item, path)?;
            Some(("", rank, None, 0))
        }
    }
}

/// The first name that an item has, with the number of its column.
pub(crate) fn own_name<'g>(
    forests: &'g RankedForests<'_>,
    item: NodeId,
    columns: &[Column<'_>],
) -> Option<(usize, Name<'g>)> {
    for (number, column) in columns.iter().enumerate() {
        if let Some(name) = name_in(forests, item, *column) {
            return Some((number, name));
        }
    }
    None
}

/// For each item that is in no pair the name that it has there.
fn names_in<'g>(
    alloc: Global,
    forests: &'g RankedForests<'_>,
    items: &[NodeId],
    places: &[Option<usize>],
    column: Column<'_>,
) -> Result<Vec<Option<Name<'g>>>, AllocError>
    ensures ok { IfOk result (λ names. AreNames forests.now (naming_of column.entry) items.now places.now names.items) }
{
    let mut names = Vec::new(alloc);
    for (place, item) in items.iter().enumerate() {
        if is_free(places, place) {
            names.push(name_in(forests, *item, column))?;
        } else {
            names.push(None)?;
        }
    }
    Ok(names)
}

/// Pairs items by the names that stand once on either side, of the items in no pair, one column after the other.
pub(crate) fn pair_named(
    alloc: Global,
    forests: &RankedForests<'_>,
    lefts: &[NodeId],
    rights: &[NodeId],
    columns: &[Column<'_>],
    partners: &mut Partners,
) -> Result<(), AllocError>
    ensures ok { OnOk result (Within forests.now lefts.now rights.now
        → HasPairs partners.old (length lefts.now) (length rights.now) (EqualPairs forests.now lefts.now rights.now)
        → HasPairs partners.new (length lefts.now) (length rights.now) (PairsBy forests.now lefts.now rights.now (map naming_of columns.now))) }
{
    forests.laws();
    for column in columns {
        let left = names_in(alloc, forests, lefts, &partners.lefts, *column)?;
        let right = names_in(alloc, forests, rights, &partners.rights, *column)?;
        join(alloc, partners, &left, &right)?;
    }
    Ok(())
}
