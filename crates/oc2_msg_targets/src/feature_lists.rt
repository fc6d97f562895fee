// Lists of features in trees.
ghost use Rattle.std.specs.Prelude.{◌≡◌, IfOk, IfSome, IsTrue, map, option_and_then};
ghost use Rattle.serde_json.specs.Find.{as_array};
ghost use Rattle.cacao_json.specs.Tree.{data_of, items_of};
ghost use Rattle.oc2_msg_targets.specs.Features.{feature_in, features_in, distinct, is_distinct};

use crate::features::{Feature, FeatureList};
use crate::parts::{items_in, str_of};
use cacao_json::Tree;
use std::alloc::{AllocError, Global};

fn feature_in(tree: &Tree) -> Option<Feature>
    ensures { result ≡ feature_in (data_of tree.now) }
{
    Feature::read(str_of(tree)?)
}

/// The features that the items name, if none stands twice.
fn read_items(alloc: Global, items: &[Tree]) -> Result<Option<FeatureList>, AllocError>
    ensures value { IfOk result (λ found. found ≡ option_and_then distinct (features_in (items_of (map data_of items.now)))) }
    ensures fits { IfOk result (λ found. IfSome found (λ list. IsTrue (is_distinct list))) }
{
    let mut list = FeatureList::new(alloc);
    for tree in items {
        let Some(feature) = feature_in(tree) else {
            return Ok(None);
        };
        if list.has(feature) {
            return Ok(None);
        }
        list.push(feature)?;
    }
    Ok(Some(list))
}

/// The features that an array names, if none stands twice.
pub fn read_features(alloc: Global, tree: &Tree) -> Result<Option<FeatureList>, AllocError>
    ensures value { IfOk result (λ found. found
        ≡ option_and_then distinct (option_and_then features_in (as_array (data_of tree.now)))) }
    ensures fits { IfOk result (λ found. IfSome found (λ list. IsTrue (is_distinct list))) }
{
    match items_in(tree) {
        Some(items) => read_items(alloc, items),
        None => Ok(None),
    }
}
