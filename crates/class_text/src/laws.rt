//! Laws of lists.
ghost use Rattle.class_text.specs.Laws.{AreApart, IsOneList, IsOneStop};

/// A text lists names, and then no others, or it stops to be a list at one line.
pub fn one_listing()
    ensures list { IsOneList }
    ensures stop { IsOneStop }
    ensures apart { AreApart }
{}
