//! What an annotation says, kind by kind: `requires`, `ensures`, `keeps`, `shows`, zones, measures and costs.

use syntax::{Budget, Inequality, Left, Measure, Pending, Zone};

/// What an annotation says.
#[derive(Drop)]
pub enum Annotation {
    /// `requires F R F`
    Requires(Inequality),
    /// `ensures F R F`
    Ensures(Inequality),
    /// `reads O F F`, `writes O F F` and `adds O F F`
    FunctionZone(Zone),
    /// `measure F max N`
    Measure(Measure),
    /// `budget K S`
    Budget(Budget),
    /// `keeps F R F`
    Keeps(Inequality),
    /// `pending %s MODE O F F`
    Pending(Pending),
    /// `left F F`
    Left(Left),
    /// `foot MODE O F F`
    Foot(Zone),
    /// `shows F R F`
    Shows(Inequality),
}

/// An annotation, and whether the names and numbers of its line are within the limits of a module's text. A number past its limit
/// stands in it as 0.
#[derive(Drop)]
pub struct AnnotationLine {
    pub annotation: Annotation,
    pub is_within_limits: bool,
}
