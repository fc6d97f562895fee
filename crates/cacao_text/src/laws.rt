// What holds of canonical text.
ghost use Rattle.cacao_text.specs.Laws.{TextsHaveTrees, ReadsBack, HasOneText, IsFixed, BookReadsBack, BookIsFixed, IsNoLonger, BookIsNoLonger};

/// Canonical text reads back, for every tree of the profile: names distinct and in byte order, texts in
/// UTF-8, whole numbers in range, at most 127 levels. The function does nothing; its contract is the law.
pub fn canonical_law()
    ensures trees { TextsHaveTrees }
    ensures reads_back { ReadsBack }
    ensures one_text { HasOneText }
    ensures fixed { IsFixed }
    ensures book_reads_back { BookReadsBack }
    ensures book_fixed { BookIsFixed }
    ensures no_longer { IsNoLonger }
    ensures book_no_longer { BookIsNoLonger }
{}
