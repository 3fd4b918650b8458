//! Laws of the definitions, each the contract of a function.
ghost use Rattle.draw_pictures.specs.Parts.{FewStand, PartsMeet, WholeHasAll};
ghost use Rattle.draw_pictures.specs.Shown.{WordsFit};

/// Where nothing is named, a picture has each row, once and in order.
pub fn whole_has_all()
    ensures { WholeHasAll }
{}

/// Parts whose lines meet have together each row of all their lines, once and in order.
pub fn parts_meet()
    ensures { PartsMeet }
{}

/// At most 97 rows stand above a part.
pub fn few_stand()
    ensures { FewStand }
{}

/// No box shows more than 40 bytes of words, whatever its numbers.
pub fn words_fit()
    ensures { WordsFit }
{}
