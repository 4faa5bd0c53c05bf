//! Laws of the printed texts.
ghost use Rattle.sccp_report.specs.Told.{MixedRoutesAreInRange, TextTellsChange, TextTellsMixedRoute, TextTellsPointCode, TextTellsRoute};

/// No two numbers of up to 64 bits have the same text as point codes, not even those from 16384 on.
pub fn text_tells_point_code()
    ensures { TextTellsPointCode }
{}

/// The text of a route's hops determines each hop and what was held prohibited there: two routes of a plan that are
/// printed alike are the same hops under the same markings. The numbers of both are in range, as in each lawful verdict.
pub fn text_tells_route()
    ensures { TextTellsRoute }
{}

/// The same of a mixed route of two plans of the same nodes: its text also gives the plan that each relay held. The numbers of both
/// are in range, as in each lawful answer: two such answers whose routes are printed alike show the same one. Under any marking the
/// numbers of the mixed route of a title that the old plan covers are in range.
pub fn text_tells_mixed_route()
    ensures route { TextTellsMixedRoute }
    ensures change { TextTellsChange }
    ensures range { MixedRoutesAreInRange }
{}
