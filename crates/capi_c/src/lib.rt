// The C interface as a static library: each function of jorghipa.h by its C name, with the clauses of
// capi's function of that name, which does the work.
#![tactic(auto)]

mod assembly;
mod building;
mod cylinder;
mod distances;
mod editing;
mod lifting;
mod moving;
mod numbers;
mod pair;
mod verdict;
