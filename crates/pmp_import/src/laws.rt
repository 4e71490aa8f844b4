//! Laws of the scripts that logs have.

ghost use Rattle.pmp_import.specs.Laws.{FrontLaw, SurveyedLaw};

/// A log in which a survey found no fault has a script.
pub fn law_surveyed()
    ensures { SurveyedLaw }
{}

/// The script of a log begins with what its first lines give.
pub fn law_front()
    ensures { FrontLaw }
{}
