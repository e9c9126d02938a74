//! Laws of the definitions: a function without parameters and without a body has the law as its contract.
ghost use Rattle.cy_target.specs.Laws.{OwnPathsAreReadBack, PathsAreClean, PathsStayBelowRoot, UnescapingIsDecoding};

/// A path that is read has no dot segment, and no empty segment but the last.
pub fn paths_are_clean()
    ensures { PathsAreClean }
{}

/// A path whose escapes are right is read exactly where no segment leads above the root.
pub fn paths_stay_below_the_root()
    ensures { PathsStayBelowRoot }
{}

/// A target that is its own path is read as that path.
pub fn own_paths_are_read_back()
    ensures { OwnPathsAreReadBack }
{}

/// What a segment's escapes stand for is what percent-decoding gives.
pub fn unescaping_is_decoding()
    ensures { UnescapingIsDecoding }
{}
