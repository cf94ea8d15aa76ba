//! The keys that name items.
ghost use Rattle.std.specs.Prelude.{◌≡◌, ◌<◌, ◌&&◌, map, bytes_eq, IfOk};
ghost use Rattle.yaml_definitions.specs.model.Same.{same};
ghost use Rattle.yaml_definitions.specs.model.Tag.{str_tag};
ghost use Rattle.yaml_store_rank.specs.Forests.{count, tree};
ghost use Rattle.review_folds.specs.Labels.{string, IsRankOf, IsKey, AreEach};

use std::alloc::{AllocError, Global};
use yaml_pair::TABLE;
use yaml_store_rank::RankedForests;
use yaml_text::core_tag;
use yaml_tree::node::NodeId;
use yaml_tree::shown::Inside;

/// The key of the table that names what `metadata` stands in, too.
const NAME: &str = "name";

/// The key below which an object has its name.
const METADATA: &str = "metadata";

/// A key, and the rank of the nodes that are this string, if there are any.
#[derive(Clone, Copy)]
pub struct Key {
    pub(crate) text: &'static str,
    pub(crate) rank: Option<u32>,
}

/// The keys that name items.
#[derive(Drop)]
pub struct Keys {
    /// Those of the table, in its order.
    pub(crate) table: Vec<Key>,
    pub(crate) metadata: Key,
    pub(crate) name: Key,
}

/// Whether a scalar of this tag and content is this string.
fn is_str(tag: &str, content: &str, text: &str) -> bool
    ensures { result ≡ (bytes_eq str_tag tag.now && bytes_eq text.now content.now) }
{
    core_tag::STR == tag && text == content
}

/// Whether a node is this string.
#[tactic(auto, using(crate::proofs::KeyLaws::string_scalar, crate::proofs::KeyLaws::string_other))]
fn is_string(forests: &RankedForests<'_>, id: NodeId, text: &str) -> bool
    requires { id.0 < count forests.now }
    ensures { result ≡ same (string text.now) (tree forests.now id.0) }
{
    forests.laws();
    let shown = forests.node(id);
    match shown.inside {
        Inside::Scalar(content) => is_str(shown.tag, content, text),
        _ => false,
    }
}

/// The rank of the nodes that are this string, if there are any.
fn rank_of(forests: &RankedForests<'_>, text: &str) -> Option<u32>
    ensures { IsRankOf forests.now (string text.now) result }
{
    forests.laws();
    for number in 0..forests.len() {
        let id = NodeId(number);
        if is_string(forests, id, text) {
            return Some(forests.rank(id));
        }
    }
    None
}

fn key_of(forests: &RankedForests<'_>, text: &'static str) -> Key
    ensures { IsKey forests.now text.now result }
{
    Key {
        text,
        rank: rank_of(forests, text),
    }
}

/// A key for each of these texts.
fn keys_of(
    alloc: Global,
    forests: &RankedForests<'_>,
    texts: &[&'static str],
) -> Result<Vec<Key>, AllocError>
    ensures ok { IfOk result (λ keys. AreEach forests.now (map (λ text. text.now) texts.now) keys.items) }
{
    let mut keys = Vec::new(alloc);
    for text in texts {
        keys.push(key_of(forests, *text))?;
    }
    Ok(keys)
}

impl Keys {
    ghost use Rattle.std.specs.Prelude.{◌≡◌, IfOk};
    ghost use Rattle.review_folds.specs.Labels.{AreKeys};

    /// Those of the nodes of all streams.
    ///
    /// # Errors
    /// `OutOfMemory`
    pub fn new(alloc: Global, forests: &RankedForests<'_>) -> Result<Keys, AllocError>
        ensures ok { IfOk result (λ keys. AreKeys forests.now keys) }
    {
        Ok(Keys {
            table: keys_of(alloc, forests, &TABLE)?,
            metadata: key_of(forests, METADATA),
            name: key_of(forests, NAME),
        })
    }
}
