//! The number of losses that a cover survives.
use crate::stop::Stop;

/// How many losses there can be before a title of a cover is stopped, if up to `losses` are asked for.
#[derive(Drop)]
pub enum Margin {
    /// The shown losses stop the shown title, and no fewer stop any title of the cover.
    Stopped(Stop),
    /// Up to `losses` losses stop no title. Of more nothing is said.
    Survives,
    /// No number of losses stops a title.
    SurvivesAny,
    /// Fewer losses than this stop no title. For this number, the ways of the cover's titles have at least 1,048,576 classes.
    TooWide(u8),
}
