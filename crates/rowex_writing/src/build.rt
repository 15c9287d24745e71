//! Records made for what takes the place of a span.

pub mod deeds;
pub mod growing;
pub mod hints;
pub mod kept;
pub mod leaves;
pub mod nodes;
pub mod remaking;
pub mod rising;
pub mod taking;
