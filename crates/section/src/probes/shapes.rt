// The five probes of a box, and what is told of each.

// Something of each probe, the centre and the corners in their order: the point itself, or whether an odd number of edges
// crosses the line from it along z, beyond it.
#[derive(Clone, Copy)]
pub struct Probes<T> {
    pub centre: T,
    pub c00: T,
    pub c10: T,
    pub c11: T,
    pub c01: T,
}
