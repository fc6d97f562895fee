// Features that a query asks for.
use std::alloc::{AllocError, Global};
use std::marker::Model;

/// What a query asks for (OpenC2 Language 1.0, section 3.4.2.4).
#[derive(Clone, Copy, PartialEq, Eq)]
pub enum Feature {
    Versions,
    Profiles,
    Pairs,
    RateLimit,
}

/// A list of features, in the order of the query.
#[derive(Drop)]
pub struct FeatureList {
    items: Vec<Feature>,
}

impl Model for FeatureList {
    ghost use Rattle.std.specs.Prelude.{List};
    ghost use Rattle.oc2_msg_targets.specs.declared.features.Feature.{Feature};

    ghost Value = { List Feature };

    ghost view = { λ list. list.items.items };
}

impl FeatureList {
    ghost use Rattle.std.specs.Prelude.{◌≡◌, [], ◌∷◌, ◌++◌, OnOk, OnErr};
    ghost use Rattle.oc2_msg_targets.specs.Features.{has};

    /// No features. It takes no memory.
    pub fn new(alloc: Global) -> FeatureList
        ensures { result ≡ [] }
    {
        FeatureList {
            items: Vec::new(alloc),
        }
    }

    /// The features of this vector. It takes no memory.
    pub fn from_vec(items: Vec<Feature>) -> FeatureList
        ensures { result ≡ items.items }
    {
        FeatureList { items }
    }

    /// The vector of the features. It takes no memory.
    pub fn into_vec(self) -> Vec<Feature>
        ensures { result.items ≡ self }
    {
        self.items
    }

    /// The features, in their order.
    pub fn as_slice(&self) -> &[Feature]
        ensures { result.now ≡ self.now }
    {
        self.items.as_slice()
    }

    /// Whether the feature stands in the list.
    pub fn has(&self, feature: Feature) -> bool
        ensures { result ≡ has self.now feature }
    {
        self.items.iter().any(|item| feature.is_same(*item))
    }

    /// One feature more, at the end.
    pub fn push(&mut self, feature: Feature) -> Result<(), AllocError>
        ensures ok { OnOk result (self.new ≡ self.old ++ feature ∷ []) }
        ensures err { OnErr result (self.new ≡ self.old) }
    {
        self.items.push(feature)?;
        Ok(())
    }
}

impl Feature {
    ghost use Rattle.std.specs.Prelude.{◌≡◌};
    ghost use Rattle.oc2_msg_targets.specs.Words.{feature_named, feature_word};
    ghost use Rattle.oc2_msg_targets.specs.Features.{is_same};

    fn is_same(self, other: Feature) -> bool
        ensures { result ≡ is_same self other }
    {
        self == other
    }

    /// The feature of this name.
    pub fn read(text: &str) -> Option<Feature>
        ensures { result ≡ feature_named text.now }
    {
        if text == "versions" {
            Some(Feature::Versions)
        } else if text == "profiles" {
            Some(Feature::Profiles)
        } else if text == "pairs" {
            Some(Feature::Pairs)
        } else if text == "rate_limit" {
            Some(Feature::RateLimit)
        } else {
            None
        }
    }

    /// The name of the feature.
    pub fn word(self) -> &'static str
        ensures { result.now ≡ feature_word self }
    {
        match self {
            Feature::Versions => "versions",
            Feature::Profiles => "profiles",
            Feature::Pairs => "pairs",
            Feature::RateLimit => "rate_limit",
        }
    }
}
