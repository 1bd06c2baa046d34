// The builders: a section from its points, a polygon from its vertices.
mod builder;

pub use builder::{
    check_polygon, check_section, try_from_polygon, try_from_section, write_polygon, write_section,
};
