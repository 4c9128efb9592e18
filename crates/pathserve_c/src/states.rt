//! What a handle holds.
use crate::finders::Finder;
use crate::struct_matches::StructMatch;
use crate::text_matches::TextMatch;
use grid_versions::Version;

/// What a handle holds.
#[derive(Drop)]
pub enum State {
    /// A match by text.
    Text(TextMatch),
    /// A match by structs.
    Structs(StructMatch),
    /// What stands, to be looked at beside a match.
    View(Version),
    /// Who answers requests by views.
    Finder(Finder),
}
