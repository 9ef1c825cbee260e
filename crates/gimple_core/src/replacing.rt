//! Laws of programs that may replace others.

ghost use Rattle.gimple_core.specs.Replacing.{ReplacesItself, ReplacesInTurn};

/// A program without a type fault may replace itself; one that replaces a program that replaces a third one may replace
/// that one, and the factors of growth multiply.
pub fn replacing_is_transitive()
    ensures itself { ReplacesItself }
    ensures in_turn { ReplacesInTurn }
{}
