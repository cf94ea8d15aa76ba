//! Laws of pasted paths. Each function has an empty body, and its contract is a law.
ghost use Rattle.review_paths.specs.Laws.{PointersLead, FiltersLead};

/// A JSON pointer that is written for a side, read as RFC 6901 says, leads to the node to which the difference's path leads on that side.
pub fn pointers_lead()
    ensures { PointersLead }
{}

/// The same of a filter, read as jq reads it.
pub fn filters_lead()
    ensures { FiltersLead }
{}
