// What keeps the profile.
ghost use Rattle.cacao_json.specs.Laws.{FormedIfWhole, PutKeepsProfile, RemovalKeepsProfile, PushKeepsProfile, MembersHaveProfile};

/// What keeps a tree in the profile: at most 127 levels, names that rise, texts in UTF-8, whole numbers in range.
/// The function does nothing; its contract is the law.
pub fn profile_law()
    ensures whole { FormedIfWhole }
    ensures put { PutKeepsProfile }
    ensures removal { RemovalKeepsProfile }
    ensures push { PushKeepsProfile }
    ensures members { MembersHaveProfile }
{}
