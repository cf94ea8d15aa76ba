//! Laws of differences and moves. Each function has an empty body, and its contract is a law.
ghost use Rattle.yaml_diff.specs.PatchLaws.{ListIsPatch, LevelIsTold, ToldIsLevel};

/// The lines of a list make either side of the other, in its order.
pub fn list_is_patch()
    ensures { ListIsPatch }
{}

/// A whole list tells each item of a list that stands alone, and each pair that has moved.
pub fn level_is_told()
    ensures { LevelIsTold }
{}

/// And nothing else of it.
pub fn told_is_level()
    ensures { ToldIsLevel }
{}
