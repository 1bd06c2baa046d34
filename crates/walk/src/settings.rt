// The settings of the walk, and what is turned down of them.
mod settings;
mod shapes;

pub use settings::{finest, settings_refusal};
pub use shapes::Settings;
