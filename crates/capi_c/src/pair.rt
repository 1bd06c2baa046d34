// Chuck and work together: the winner, 0 the chuck or 1 the work, its distance, counts and mark.
ghost use Rattle.bodies.specs.pairs.Pairs.{pair_convex_answer, PairPromised, PairConvexPromised};
ghost use Rattle.capi.specs.lists.Lists.{body_at};
ghost use Rattle.capi.specs.handing.Interface.{Measures, places, counts, both};
ghost use Rattle.capi.specs.handing.Pairs.{pair_places, won_places};
ghost use Rattle.capi.specs.Calls.{pair_of};

#[unsafe(no_mangle)]
pub extern "C" fn jorghipa_pair(
    chuck: &[f64],
    work: &[f64],
    kind: u32,
    numbers: &[f64],
    winner: &mut u32,
    distance: &mut f64,
    witness_z: &mut f64,
    witness_radius: &mut f64,
    edge: &mut u32,
    boxes: &mut u32,
    waiting: &mut u32,
    cut: &mut u32,
) -> u32
    ensures { let c = chuck.now in let w = work.now in let n = numbers.now in
        Measures (PairPromised c w (body_at kind n 0)) won_places (pair_of c w kind n) result
        (pair_places winner.old
        (both (places distance.old witness_z.old witness_radius.old edge.old)
        (counts boxes.old waiting.old cut.old)))
        (pair_places winner.new
        (both (places distance.new witness_z.new witness_radius.new edge.new)
        (counts boxes.new waiting.new cut.new))) }
{
    capi::jorghipa_pair(
        chuck,
        work,
        kind,
        numbers,
        winner,
        distance,
        witness_z,
        witness_radius,
        edge,
        boxes,
        waiting,
        cut,
    )
}

#[unsafe(no_mangle)]
pub extern "C" fn jorghipa_pair_convex(
    chuck: &[f64],
    work: &[f64],
    convex: &[f64],
    winner: &mut u32,
    distance: &mut f64,
    witness_z: &mut f64,
    witness_radius: &mut f64,
    edge: &mut u32,
    boxes: &mut u32,
    waiting: &mut u32,
    cut: &mut u32,
) -> u32
    ensures { let c = chuck.now in let w = work.now in
        Measures (PairConvexPromised c w) won_places (pair_convex_answer c w convex.now) result
        (pair_places winner.old
        (both (places distance.old witness_z.old witness_radius.old edge.old)
        (counts boxes.old waiting.old cut.old)))
        (pair_places winner.new
        (both (places distance.new witness_z.new witness_radius.new edge.new)
        (counts boxes.new waiting.new cut.new))) }
{
    capi::jorghipa_pair_convex(
        chuck,
        work,
        convex,
        winner,
        distance,
        witness_z,
        witness_radius,
        edge,
        boxes,
        waiting,
        cut,
    )
}
