//! The law of verdicts.

ghost use Rattle.ipa_driver.specs.Verdict.{OneVerdict};

/// A text is too long, has a text fault, has a type fault or is good, and has one such verdict alone.
pub fn one_verdict()
    ensures { OneVerdict }
{}
