// Does anything of an assembly hit: up to 64 bodies beside a section, with a clearance.
mod judging;
mod refusal;

pub use judging::any_hit;
