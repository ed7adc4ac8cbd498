ghost use Rattle.sgb_vec.specs.Lexicographic.{BoxesAreFamilies, SumsAreFamilies};
ghost use Rattle.sgb_vec.specs.NamedVectors.{NamesReadBack};

/// A box has exactly the vectors below its sizes, in strictly rising lexicographic order (GB_BASIC, board).
pub fn boxes_are_families()
    ensures { BoxesAreFamilies }
{}

/// A bounded sum has exactly the vectors within its bounds that have this sum, in strictly rising
/// lexicographic order (GB_BASIC, simplex).
pub fn sums_are_families()
    ensures { SumsAreFamilies }
{}

/// A text stands for a vector exactly where it is that vector's name (GB_BASIC, board).
pub fn names_read_back()
    ensures { NamesReadBack }
{}
