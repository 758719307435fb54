//! The law of covers: a scene whose items of equal keys cover no pixel in common has the same pictures by each lawful journal.
#![tactic(auto)]

ghost use Rattle.cover_laws.specs.Laws.{CoverLaw, AnyJournalLaw, BareLaw};

/// The law of covers: where any two items of different encoders that share a key are draws onto the back buffer that carry no uniform value
/// and cover no pixel in common, any two lawful journals of a scene give the same pictures. The law of order is the case in which no two
/// share a key.
pub fn cover_law()
    ensures { CoverLaw }
{}

/// Items do not change what draws cover: where a scene is harmless by one journal, lawful or not, it is harmless by each other that is not
/// longer.
pub fn any_journal_law()
    ensures { AnyJournalLaw }
{}

/// So it is enough to look at the worlds in which nothing is drawn: where a scene is harmless in these, any two lawful journals give the same
/// pictures.
pub fn bare_law()
    ensures { BareLaw }
{}
